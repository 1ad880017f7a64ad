// Reading until a slice is full.
ghost use Rattle.std.specs.Prelude.{◌≡◌, ◌≢◌, ◌<◌, ◌≤◌, length, take};
ghost use Rattle.port_base.specs.Bytes.{before, HasFailed};
ghost use Rattle.port_base.specs.PortViews.{source_view, SourceReads};
ghost use Rattle.port_base.specs.Reads.{IsReading, ended_by};

use crate::{Failed, Reading, Source};

/// Reads a source that stands in no place, until the slice is full, the source ends or a call fails, and says how
/// many bytes came: they stand at the slice's front. After Lost the source's count of faults rose or stands at its end;
/// else it is as it was. It is asked nothing more behind its end.
pub fn read_whole<S: Source>(source: &mut S, into: &mut [u8]) -> (Reading, usize)
    ensures port { SourceReads result.0 (source_view S.Source source.old) (take result.1 into.new)
        (source_view S.Source source.new) }
    ensures within { result.1 ≤ length into.old }
    ensures bytes { S.left source.old ≡ before (take result.1 into.new) (S.left source.new) }
    ensures reading { IsReading result.0 result.1 (length into.old) (S.left source.new) (S.ended source.new) }
    ensures ended { S.ended source.new ≡ ended_by result.0 (S.ended source.old) }
    ensures later { S.faults source.old ≤ S.faults source.new }
    ensures cause { result.0 ≡ Reading.Lost → HasFailed (S.faults source.old) (S.faults source.new) }
    ensures well { result.0 ≢ Reading.Lost → S.faults source.new ≡ S.faults source.old }
    ensures same { S.boxed source.new ≡ S.boxed source.old }
{
    let mut done = 0;
    while done < into.len() {
        match source.read(&mut into[done..]) {
            Ok(0) => return (Reading::End(done), done),
            Ok(n) => done += n,
            Err(Failed) => return (Reading::Lost, done),
        }
    }
    (Reading::Full, done)
}
