// The command `trial`.
use line_tool::{Status, run};
use otn_base::Memory;
use port_base::{Chooser, MemSink, MemSource, Rack};
use std::alloc::Global;
use std::test::Fail;

/// Chooses the last port that is ready, and counts how often it was asked.
#[derive(Drop)]
struct LastReady {
    asked: u64,
}

impl Chooser for LastReady {
    ghost asked = { λ chooser. chooser.asked };

    fn pick(&mut self, n: u32) -> u32 {
        self.asked = self.asked.saturating_add(1);
        n.saturating_sub(1)
    }
}

// What `trial 7` answers where the report has room for so many bytes, what it writes, and how often it asks.
fn tried(alloc: Global, room: usize) -> Result<(Status, Vec<u8>, u64), Memory> {
    let words = vec![in alloc;
        String::from_str(alloc, "trial")?,
        String::from_str(alloc, "7")?,
    ]?;
    let mut plan = MemSource::new(Vec::new(alloc));
    let mut bays: Rack<MemSource, MemSink> = Rack::new(alloc)?;
    let mut report = MemSink::with_room(alloc, room)?;
    let mut chooser = LastReady { asked: 0 };
    let status = run(
        alloc,
        &words,
        &mut plan,
        &mut bays,
        &mut chooser,
        &mut report,
    );
    Ok((status, report.into_bytes(), chooser.asked))
}

const CHECKS: &str = "line 0 check 1c2b80b1\nline 1 check 413c97c3\nline 2 check a9911937\n";

#[test]
fn a_trial_brings_all_packets_back(rt: HostRuntime) -> Result<(), Fail> {
    let alloc = rt.alloc();
    let (status, written, asked) = tried(alloc, 4096)?;
    let text = written.as_slice();
    assert_eq!(rt;
        (status, asked, text.get(..CHECKS.len()).unwrap_or(&[])),
        (Status::Done, 1024, CHECKS.as_bytes())
    );
    let mut back = 0u32;
    for line in text.split(|byte| *byte == b'\n') {
        if line.get(8..31).unwrap_or(&[]) == b" sent 16 got 16 bytes 1".as_slice() {
            back = back.saturating_add(1);
        }
    }
    assert_eq!(rt; back, 8);
    Ok(())
}

#[test]
fn a_report_without_room_is_a_fault(rt: HostRuntime) -> Result<(), Fail> {
    let alloc = rt.alloc();
    let (status, written, asked) = tried(alloc, 40)?;
    let wanted = CHECKS.as_bytes().get(..40).unwrap_or(&[]);
    assert_eq!(rt;
        (status, asked, written.as_slice()),
        (Status::ReportFault, 1024, wanted)
    );
    Ok(())
}
