// A source that gives the packets of a capture as lines of hex digits.
ghost use Rattle.std.specs.Prelude.{◌≡◌, ◌<◌, ◌≤◌, false, Ok, IfOk, OnOk, OnErr, length};
ghost use Rattle.std.specs.Option.{option_map};
ghost use Rattle.port_base.specs.Bytes.{before, HasFailed};
ghost use Rattle.port_base.specs.Reads.{HasEnded, ended_after};
ghost use Rattle.pcap_packets.specs.CaptureText.{capture_text};
ghost use Rattle.pcap_packets.specs.Captures.{capture_left, capture_ended, capture_faults};

use crate::lines::CaptureLines;
use otn_base::Memory;
use port_base::{Failed, Source};
use std::alloc::Global;

/// Gives the text of the capture whose bytes another source gives: for each packet a line of hex digits in lower case.
/// It reads ahead of what it gives. It fails only where that source does, and then none of the text is gone.
#[derive(Drop)]
pub struct PcapSource<S> {
    inner: S,
    lines: CaptureLines,
    ended: bool,
}

impl<S: Source> PcapSource<S> {
    /// Gives the text of this source's capture: `!` and LF at the first bytes that are none of a capture. All memory,
    /// 256 KiB and a little, is taken here.
    pub fn new(alloc: Global, inner: S) -> Result<PcapSource<S>, Memory>
        ensures left { IfOk result (λ source. capture_left S.left source ≡ option_map capture_text (S.left inner)) }
        ensures ended { IfOk result (λ source. capture_ended source ≡ false) }
        ensures faults { IfOk result (λ source. capture_faults S.faults source ≡ S.faults inner) }
    {
        Ok(PcapSource {
            inner,
            lines: CaptureLines::new(alloc)?,
            ended: false,
        })
    }
}

impl<S: Source> Source for PcapSource<S> {
    ghost left = { capture_left S.left };

    ghost faults = { capture_faults S.faults };

    ghost ended = { capture_ended };

    fn read(&mut self, into: &mut [u8]) -> Result<usize, Failed> {
        if into.is_empty() {
            return Ok(0);
        }
        self.lines.ready(&mut self.inner)?;
        let count = self.lines.give(into);
        if count == 0 {
            self.ended = true;
        }
        Ok(count)
    }

    fn pass(&mut self, _n: usize) {}
}
