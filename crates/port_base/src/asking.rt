// Whether an input place has more: it is asked for one byte.
ghost use Rattle.std.specs.Prelude.{◌≡◌, ◌≢◌, true, false};
ghost use Rattle.port_base.specs.Asked.{ByteAnswer};
ghost use Rattle.port_base.specs.InPlace.{in_view};
ghost use Rattle.port_base.specs.Reads.{HasEnded};
ghost use Rattle.port_base.specs.Views.{Dead};

use crate::{InPlaceOf, Reading, Source};

/// Asks a place for one byte more, and says whether it came. Where none came, a place that is not dead has ended.
pub fn ask_byte<P: Source>(place: &mut InPlaceOf<P>) -> bool
    ensures answer { ByteAnswer true (in_view P.Source place.old) (in_view P.Source place.new) result }
    ensures stays { (in_view P.Source place.new).state ≢ Dead
        → (in_view P.Source place.new).state ≡ (in_view P.Source place.old).state }
    ensures ended { result ≡ false → (in_view P.Source place.new).state ≢ Dead
        → HasEnded (in_view P.Source place.new).left (in_view P.Source place.new).ended }
{
    let mut byte = [0; 1];
    match place.read_full(&mut byte) {
        Reading::Full => true,
        Reading::End(_) => false,
        Reading::Lost => false,
    }
}
