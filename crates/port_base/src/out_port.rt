// A sink behind a box, or one in memory.
ghost use Rattle.std.specs.Prelude.{◌≡◌, ◌<◌, ◌≤◌, false, IfOk, OnOk, OnErr, length};
ghost use Rattle.port_base.specs.Bytes.{after, sent, HasFailed};
ghost use Rattle.port_base.specs.Memory.{TakesWhatFits};
ghost use Rattle.port_base.specs.Ports.{out_got, out_faults, out_keeps, is_out_boxed, held_room};

use crate::{Failed, MemSink, Sink, Written};

/// What an output place holds. Each call on it, and each of its meanings, is that of what it holds.
#[derive(Drop)]
pub enum OutPort {
    Boxed(Box<dyn Sink>),
    Held(MemSink),
}

impl Sink for OutPort {
    ghost got = { out_got (λ b. (Sink-box b).got b.value) };

    ghost faults = { out_faults (λ b. (Sink-box b).faults b.value) };

    ghost keeps = { out_keeps (λ b. (Sink-box b).keeps b.value) };

    ghost boxed = { is_out_boxed };

    fn write(&mut self, bytes: &[u8]) -> Result<usize, Failed>
        ensures bound { IfOk result (λ n. n ≤ length bytes.now) }
        ensures progress { IfOk result (λ n. 0 < length bytes.now → 0 < n) }
        ensures bytes { out_got got self.new ≡ after (out_got got self.old) (sent result bytes.now) }
        ensures later { out_faults faults self.old ≤ out_faults faults self.new }
        ensures cause { OnErr result (HasFailed (out_faults faults self.old) (out_faults faults self.new)) }
        ensures well { OnOk result (out_faults faults self.new ≡ out_faults faults self.old) }
        ensures keeps { out_keeps keeps self.new ≡ out_keeps keeps self.old }
        ensures same { is_out_boxed self.new ≡ is_out_boxed self.old }
        ensures held { is_out_boxed self.old ≡ false
            → TakesWhatFits (held_room self.old) bytes.now result (held_room self.new) }
    {
        match self {
            OutPort::Boxed(sink) => sink.write(bytes),
            OutPort::Held(sink) => sink.write(bytes),
        }
    }

    fn write_lines(&mut self, lines: &[u8]) -> (Written, usize) {
        match self {
            OutPort::Boxed(sink) => sink.write_lines(lines),
            OutPort::Held(sink) => sink.write_lines(lines),
        }
    }

    fn write_frames(&mut self, frames: &[u8]) -> (Written, usize) {
        match self {
            OutPort::Boxed(sink) => sink.write_frames(frames),
            OutPort::Held(sink) => sink.write_frames(frames),
        }
    }

    fn kept(&self) -> Option<&[u8]> {
        match self {
            OutPort::Boxed(sink) => sink.kept(),
            OutPort::Held(sink) => sink.kept(),
        }
    }
}
