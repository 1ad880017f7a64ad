// What became of a frame in a hunt.

/// The line locks on the multiframe that begins with the frame, passes over the frame, or ends, since there is no such
/// frame.
#[derive(Clone, Copy, Debug, PartialEq, Eq)]
pub enum Tried {
    Locks,
    Passes,
    Ends,
}
