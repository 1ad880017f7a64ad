// The groups of a row or of a frame, before they are in one.
ghost use Rattle.std.specs.Prelude.{◌≡◌, ℕ, List, length};

/// The groups of a row, or those of a frame, one after the other, that can be laid out where they are wanted.
pub trait RowGroups: Drop {
    /// Their bytes.
    ghost groups: { Self → List ℕ };

    /// Lays them out.
    fn lay(&self, into: &mut [u8])
        requires { length into.old ≡ length (groups self.now) }
        ensures { into.new ≡ groups self.now };
}
