// Bytes that went by.
ghost use Rattle.std.specs.Prelude.{◌≡◌, ℕ, List, [], ◌++◌};
ghost use Rattle.std.specs.Borrow.{ftrue};

use std::marker::Model;

/// Bytes that are let go of.
#[derive(Drop)]
pub struct Taken {
    pub bytes: Vec<u8>,
}

/// The bytes that were let go of so far.
#[derive(Drop)]
pub struct Past {
    pub ghost bytes: { List ℕ },
}

impl Model for Past {
    ghost also_owns = { λ _. ftrue };
}

impl Past {
    /// None.
    pub fn new() -> Past
        ensures { result.bytes ≡ [] }
    {
        Past {}
    }

    /// These, and the ones that are let go of now.
    pub fn with(_before: &Past, _now: &Taken) -> Past
        ensures { result.bytes ≡ _before.now.bytes ++ _now.now.bytes.items }
    {
        Past {}
    }
}
