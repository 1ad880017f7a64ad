// What the file of an output line shows, as the contract of a function.
ghost use Rattle.device_model.specs.Made.{HasItsMultiframes, ShowsItsConnections};

/// The file of an output line has the multiframe of each turn whose frames were all made, from turn 1 on,
/// and shows there of each connection that goes to the line what a source puts that took what the
/// connection got until then, with its port in the MSI bytes (G.709 clauses 15.6.2.2, 19.4 and 19.4.1).
pub fn made_files()
    ensures multiframes { HasItsMultiframes }
    ensures connections { ShowsItsConnections }
{}
