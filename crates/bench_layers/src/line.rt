// Output lines, to a place with no port.
use line_side::LineOut;
use msi_table::SlotMap;
use otn_base::{LineKind, Memory};
use port_base::{MemSink, OutPlaceOf};
use std::alloc::Global;

/// Finishes so many frames of a line, with a payload byte that changes, and counts them.
pub(crate) fn finish(
    alloc: Global,
    kind: LineKind,
    scrambled: bool,
    frames: u32,
) -> Result<u32, Memory> {
    let mut line = LineOut::new(alloc, 0, kind, scrambled)?;
    let map = SlotMap::new(kind);
    let mut place = OutPlaceOf::<MemSink>::Empty;
    for n in 0..frames {
        let mfas = (n % 256) as u8;
        line.begin().set(1, 17, mfas);
        line.finish(mfas, &map, &mut place);
    }
    Ok((line.frames() % 0x1_0000_0000) as u32)
}
