// The command `check`.
use crate::line_runs::FailsAt;
use line_tool::{Status, run};
use otn_base::Memory;
use plan_file::PlanError;
use port_base::{FirstReady, MemSink, MemSource, Rack, Source};
use std::alloc::Global;
use std::test::Fail;

const ONE: &str =
    "turns = 8\n[[connection]]\nname = \"a\"\nkind = \"odu0\"\nfrom = { client = 0 }\nto = { line = 0, port = 1, slots = [3] }\n";

// What `check` answers to a plan, and what it writes.
fn checked<P: Source>(
    alloc: Global,
    mut plan: P,
    room: usize,
) -> Result<(Status, Vec<u8>), Memory> {
    let words = vec![in alloc; String::from_str(alloc, "check")?]?;
    let mut bays: Rack<MemSource, MemSink> = Rack::new(alloc)?;
    let mut report = MemSink::with_room(alloc, room)?;
    let mut chooser = FirstReady::new();
    let status = run(
        alloc,
        &words,
        &mut plan,
        &mut bays,
        &mut chooser,
        &mut report,
    );
    Ok((status, report.into_bytes()))
}

fn bytes_of(alloc: Global, text: &str) -> Result<Vec<u8>, Memory> {
    Ok(Vec::from_slice(alloc, text.as_bytes())?)
}

#[test]
fn plans_are_told_or_refused(rt: HostRuntime) -> Result<(), Fail> {
    let alloc = rt.alloc();
    for (text, status, written) in [
        (ONE, Status::Done, "plan connections 1 turns 8\n"),
        (
            "turns = 16384",
            Status::Done,
            "plan connections 0 turns 16384\n",
        ),
        ("turns = 0", Status::Plan(PlanError::Turns, 0), ""),
        ("turns =", Status::Plan(PlanError::NotToml, 0), ""),
        (
            "turns = 8\n[[connection]]\nname = \"a\"",
            Status::Plan(PlanError::MissingKey, 1),
            "",
        ),
    ] {
        let (answer, got) = checked(alloc, MemSource::new(bytes_of(alloc, text)?), 100)?;
        assert_eq!(rt;
            (answer, got.as_slice()),
            (status, written.as_bytes()),
            "{text}"
        );
    }
    let (answer, got) = checked(alloc, MemSource::new(bytes_of(alloc, ONE)?), 4)?;
    assert_eq!(rt;
        (answer, got.as_slice()),
        (Status::ReportFault, b"plan".as_slice())
    );
    Ok(())
}

#[test]
fn a_plan_has_at_most_a_mebibyte(rt: HostRuntime) -> Result<(), Fail> {
    let alloc = rt.alloc();
    for (length, error) in [
        (1_048_576, PlanError::MissingKey),
        (1_048_577, PlanError::NotToml),
        (1_048_600, PlanError::NotToml),
    ] {
        let (answer, _) = checked(alloc, MemSource::new(vec![in alloc; b'\n'; length]?), 100)?;
        assert_eq!(rt; answer, Status::Plan(error, 0), "{length} bytes");
    }
    Ok(())
}

#[test]
fn a_plan_that_fails_is_a_plan_fault(rt: HostRuntime) -> Result<(), Fail> {
    let alloc = rt.alloc();
    for call in [1, 2] {
        let (answer, got) = checked(alloc, FailsAt::new(bytes_of(alloc, ONE)?, call), 100)?;
        assert_eq!(rt;
            (answer, got.len()),
            (Status::PlanFault, 0),
            "at call {call}"
        );
    }
    Ok(())
}
