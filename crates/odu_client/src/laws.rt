// Laws of the definitions that client frames meet.
ghost use Rattle.std.specs.Prelude.{ℕ, List};
ghost use Rattle.odu_client.specs.Laws.{StaysDelivered, PacketsArrive};
ghost use Rattle.odu_client.specs.OutputSteps.{OutputStarts, OutputGoesOn, OutputGoesOnByByte, OutputTextGoesOn, FramesGoOn};

/// What bytes deliver at a client they deliver, whatever bytes come behind them.
pub fn delivered_stays()
    ensures { (bytes more : List ℕ) → StaysDelivered bytes more }
{}

/// Of the first bytes of a client's stream the packets arrive, in order, whose GFP frames lie whole in the frames that
/// are whole: packets of 1 to 65,527 bytes, with FCS or without.
pub fn packets_arrive()
    ensures { PacketsArrive }
{}

/// A client's output goes on step by step: an aligner takes what arrives; at `Whole` a reader of GFP frames takes the
/// frame's payload, at `Break` it begins anew. At each step it has put out what all bytes that arrived deliver, and
/// counts the frames that they hand on.
pub fn output_goes_on()
    ensures starts { OutputStarts }
    ensures bytes { OutputGoesOn }
    ensures byte { OutputGoesOnByByte }
    ensures text { OutputTextGoesOn }
    ensures frames { FramesGoOn }
{}
