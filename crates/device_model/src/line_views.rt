// The laws of what the turns of a line show of a tributary.
ghost use Rattle.device_model.specs.Agreements.{GivesTheSame};
ghost use Rattle.device_model.specs.LineViews.{ShowsWholeTurns};

/// Two worlds: lines that have as many whole frames with the same MFAS bytes, and in each multiframe the
/// same bytes at a tributary's own places, show the same of it in each turn, and a sink on it emits the
/// same, whatever their other bytes are: other slots and what their messages and MSI bytes say, overhead,
/// lead-in, FEC.
pub fn same_views()
    ensures { GivesTheSame }
{}

/// A turn of a line that has a multiframe shows every group of a tributary.
pub fn whole_views()
    ensures { ShowsWholeTurns }
{}
