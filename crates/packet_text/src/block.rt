// A block of a text.
ghost use Rattle.std.specs.Prelude.{◌≡◌, ◌≢◌};
ghost use Rattle.port_base.specs.InPlace.{in_view};
ghost use Rattle.port_base.specs.Reads.{Reads, state_after};
ghost use Rattle.port_base.specs.Views.{Live};

use otn_base::{Memory, SharedBytes};
use port_base::{InPlaceOf, Reading, Source};
use std::alloc::Global;
use std::marker::Model;

/// How many bytes a block has.
pub(crate) const BLOCK: usize = 4096;

/// A block: the bytes that were read last, from its front, and what stood behind them. It is seen as all of these.
#[derive(Drop)]
pub(crate) struct Block {
    own: Vec<u8>,
    // What the block shows in place of its own bytes: bytes that its place had at hand, where they stand.
    shared: Option<SharedBytes>,
}

impl Model for Block {
    ghost use Rattle.std.specs.Prelude.{◌≡◌, ℕ, List, length, unwrap_or};

    ghost Value = { List ℕ };

    ghost view = { λ b. unwrap_or b.shared b.own.items };

    ghost invariant = { λ b. (length (unwrap_or b.shared b.own.items) ≡ 4096) × (length b.own.items ≡ 4096) };
}

impl Block {
    ghost use Rattle.std.specs.Prelude.{length};

    /// A block whose bytes are of no account. Answers `Memory` where there is no room for them.
    pub(crate) fn new(alloc: Global) -> Result<Block, Memory> {
        Ok(Block {
            own: vec![in alloc; 0u8; BLOCK]?,
            shared: None,
        })
    }

    /// All its bytes.
    pub(crate) fn bytes(&self) -> &[u8]
        ensures bytes { result.now ≡ self.now }
        ensures size { length result.now ≡ 4096 }
    {
        match &self.shared {
            Some(shared) => shared.as_bytes(),
            None => &self.own,
        }
    }

    /// Reads the next 4,096 bytes of a place, as its `read_full` does. Where the place shares them, they stay where
    /// they stand.
    pub(crate) fn fill<P: Source>(&mut self, place: &mut InPlaceOf<P>) -> Reading
        ensures state { (in_view P.Source place.new).state ≡ state_after (in_view P.Source place.old).state result }
        ensures live { (in_view P.Source place.old).state ≡ Live
            → Reads result (in_view P.Source place.old) self.new (in_view P.Source place.new) }
        ensures idle { (in_view P.Source place.old).state ≢ Live
            → (place.new ≡ place.old) × (result ≡ Reading.End 0) }
        ensures size { length self.new ≡ 4096 }
    {
        match place.share(BLOCK) {
            Some(first) => {
                self.shared = Some(first);
                place.pass(BLOCK);
                Reading::Full
            }
            None => {
                self.shared = None;
                place.read_full(&mut self.own)
            }
        }
    }
}
