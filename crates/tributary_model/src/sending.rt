// The laws of sources, each the contract of a function: what a source puts into a line carries its bytes.
ghost use Rattle.tributary_model.specs.Sending.{CarriesWhatIsPut, CarriesAllThatIsPut, ArrivesAsItIsPut, SendsOnWhatIsPut, StaysWhereKept, StaysApart};

/// Frames that have what a source puts, and the port's MSI bytes, show views that carry the bytes that the
/// source took, from its first turn on, where its numbers fit a multiframe; where they are steady too they arrive.
pub fn what_is_put()
    ensures turn { CarriesWhatIsPut }
    ensures all { CarriesAllThatIsPut }
    ensures arrives { ArrivesAsItIsPut }
{}

/// A source of as many slots that takes in each turn what a sink emitted in the turn before sends it on.
pub fn sent_on()
    ensures { SendsOnWhatIsPut }
{}

/// What a source put into a frame stays when bytes are written elsewhere in it, and also when the source of
/// a tributary that has no slot in common with it puts its own.
pub fn put_apart()
    ensures kept { StaysWhereKept }
    ensures apart { StaysApart }
{}
