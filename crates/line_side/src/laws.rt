// The laws about a line's bytes, each the contract of a function.
ghost use Rattle.line_side.specs.Laws.{FrameByFrame, FramesThroughMask, AvailableIsAmong, MaskedTwice, OneLineFile, ParityTwoOn, TakesTheWanted};

/// What a place that tells its bytes gave in the whole run is among what the line may have.
pub fn given_is_among()
    ensures { AvailableIsAmong }
{}

/// Of any place so many bytes were taken as the turns of the line and their pieces want.
pub fn takes_the_wanted()
    ensures { TakesTheWanted }
{}

/// An output line has one file for what is put into its frames.
pub fn one_line_file()
    ensures { OneLineFile }
{}

/// Each frame of an output line, before its mask, is fixed by what was put into it and by the frame two before it.
pub fn frame_by_frame()
    ensures { FrameByFrame }
{}

/// The parity of a frame stands two frames later.
pub fn parity_two_on()
    ensures { ParityTwoOn }
{}

/// A frame of a scrambled line is the file's frame through the mask of G.709 clause 11.2, and one of a plain line as it
/// stands.
pub fn frames_through_mask()
    ensures { FramesThroughMask }
{}

/// What a scrambled output line writes is read back by a scrambled input line.
pub fn masked_twice()
    ensures { MaskedTwice }
{}
