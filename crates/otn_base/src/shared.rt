// Bytes of a block that several hold.
ghost use Rattle.std.specs.Prelude.{◌≡◌, ◌≤◌, ◌-◌, ℕ, List, IfSome, length, take, drop, vec_len};

use std::alloc::Global;
use std::marker::Model;
use std::rc::Rc;

/// Bytes of a block that others may hold too, so that nobody writes to it. They are seen as the list of these bytes.
#[derive(Drop)]
pub struct SharedBytes {
    block: Rc<Vec<u8>, Global>,
    from: usize,
    to: usize,
}

impl Model for SharedBytes {
    ghost use Rattle.std.specs.Prelude.{◌≤◌, ◌-◌, ℕ, List, take, drop, vec_len};

    ghost Value = { List ℕ };

    ghost view = { λ s. take (s.to - s.from) (drop s.from s.block.value.items) };

    ghost invariant = { λ s. (s.from ≤ s.to) × (s.to ≤ vec_len s.block.value) };
}

impl SharedBytes {
    /// The bytes of a block from one place up to another, which the block is held for. None where no more can hold it.
    pub fn of(block: &Rc<Vec<u8>, Global>, from: usize, to: usize) -> Option<SharedBytes>
        requires order { from ≤ to }
        requires within { to ≤ vec_len block.now.value }
        ensures { IfSome result (λ bytes. bytes ≡ take (to - from) (drop from block.now.value.items)) }
    {
        match block.clone() {
            Ok(block) => Some(SharedBytes { block, from, to }),
            Err(_) => None,
        }
    }

    /// These bytes.
    pub fn as_bytes(&self) -> &[u8]
        ensures { result.now ≡ self.now }
    {
        &self.block.as_ref()[self.from..self.to]
    }
}
