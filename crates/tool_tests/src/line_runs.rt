// Whole runs over ports in memory, with one line.
use line_tool::{Status, run};
use otn_base::Memory;
use plan_file::PlanError;
use port_base::{Failed, FirstReady, InPlaceOf, MemSink, MemSource, OutPlaceOf, Rack, Source};
use std::alloc::Global;

/// A source in memory that fails at one of its calls, counted from 1.
#[derive(Drop)]
pub struct FailsAt {
    inner: MemSource,
    call: u32,
    calls: u32,
    failed: u64,
}

impl FailsAt {
    /// These bytes, and the call that fails.
    pub fn new(bytes: Vec<u8>, call: u32) -> FailsAt {
        FailsAt {
            inner: MemSource::new(bytes),
            call,
            calls: 0,
            failed: 0,
        }
    }
}

impl Source for FailsAt {
    ghost use Rattle.std.specs.Prelude.{None};
    ghost use Rattle.port_base.specs.Memory.{memory_ended};

    ghost left = { λ _. None };

    ghost faults = { λ s. s.failed };

    ghost ended = { λ s. memory_ended s.inner };

    fn read(&mut self, into: &mut [u8]) -> Result<usize, Failed> {
        self.calls = self.calls.saturating_add(1);
        if self.calls == self.call {
            self.failed = self.failed.saturating_add(1);
            return Err(Failed);
        }
        self.inner.read(into)
    }

    fn pass(&mut self, _n: usize) {}
}

/// What a run answered, what it wrote, how many bytes it took of its line, and whether the line died.
#[derive(Drop)]
pub struct Outcome {
    pub status: Status,
    pub written: Vec<u8>,
    pub taken: u64,
    pub dead: bool,
}

/// A run with this line as line input 0, and room for so many bytes of the report.
pub fn ran<S: Source>(
    alloc: Global,
    words: &[&str],
    line: S,
    room: usize,
) -> Result<Outcome, Memory> {
    let mut texts = Vec::new(alloc);
    for word in words {
        texts.push(String::from_str(alloc, word)?)?;
    }
    let mut bays: Rack<S, MemSink> = Rack::new(alloc)?;
    bays.set_line_in(0, InPlaceOf::Live(line, 0));
    bays.set_line_out(0, OutPlaceOf::Empty);
    let mut plan = MemSource::new(Vec::new(alloc));
    let mut report = MemSink::with_room(alloc, room)?;
    let mut chooser = FirstReady::new();
    let status = run(
        alloc,
        &texts,
        &mut plan,
        &mut bays,
        &mut chooser,
        &mut report,
    );
    let (taken, dead) = match bays.line_in(0) {
        InPlaceOf::Empty => (0, false),
        InPlaceOf::Live(_, taken) => (*taken, false),
        InPlaceOf::Dead(_, taken) => (*taken, true),
    };
    Ok(Outcome {
        status,
        written: report.into_bytes(),
        taken,
        dead,
    })
}

#[test]
fn each_answer_has_its_code(rt: HostRuntime) {
    for (status, code) in [
        (Status::Done, 0),
        (Status::Unfinished, 1),
        (Status::Words, 2),
        (Status::Plan(PlanError::BadPace, 2), 3),
        (Status::PlanFault, 4),
        (Status::ReportFault, 5),
        (Status::Cut, 6),
        (Status::Memory, 7),
    ] {
        assert_eq!(rt; status.code(), code);
    }
}
