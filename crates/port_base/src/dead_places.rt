// Whether a place is dead.
ghost use Rattle.std.specs.Prelude.{◌≡◌};
ghost use Rattle.port_base.specs.InPlace.{in_view};
ghost use Rattle.port_base.specs.OutPlace.{out_view};
ghost use Rattle.port_base.specs.Views.{is_dead};

use crate::{InPlaceOf, OutPlaceOf, Sink, Source};

/// Whether the place of an input is dead.
pub fn is_dead_in<P: Source>(place: &InPlaceOf<P>) -> bool
    ensures { result ≡ is_dead (in_view P.Source place.now).state }
{
    match place {
        InPlaceOf::Dead(..) => true,
        InPlaceOf::Live(..) => false,
        InPlaceOf::Empty => false,
    }
}

/// Whether the place of an output is dead.
pub fn is_dead_out<K: Sink>(place: &OutPlaceOf<K>) -> bool
    ensures { result ≡ is_dead (out_view K.Sink place.now).state }
{
    match place {
        OutPlaceOf::Dead(..) => true,
        OutPlaceOf::Live(..) => false,
        OutPlaceOf::Retired(..) => false,
        OutPlaceOf::Empty => false,
    }
}
