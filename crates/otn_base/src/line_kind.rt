// The two kinds of lines.
ghost use Rattle.std.specs.Prelude.{◌≡◌, ◌*◌, ◌/◌};
ghost use Rattle.otn_base.specs.LineSlots.{slots_of, IsSlotNumber};

use crate::limits::{OTU2_SLOTS, OTU3_SLOTS};

/// What a line is: an OTU2, whose OPU2 has 8 tributary slots of 1.25G, or an OTU3, whose OPU3 has 32
/// (G.709 clause 19.1). A multiframe has as many frames as the line has slots.
#[derive(Clone, Copy, Debug, PartialEq, Eq)]
pub enum LineKind {
    Otu2,
    Otu3,
}

impl LineKind {
    /// How many tributary slots the line has, and how many frames its multiframe: 8 or 32.
    pub fn slots(&self) -> u8
        ensures slots { result ≡ slots_of self.now }
        ensures number { IsSlotNumber result }
    {
        match self {
            LineKind::Otu2 => OTU2_SLOTS as u8,
            LineKind::Otu3 => OTU3_SLOTS as u8,
        }
    }
}
