// What settles a free choice.
ghost use Rattle.std.specs.Prelude.{◌≡◌, ℕ};
ghost use Rattle.port_base.specs.Bytes.{raised};

/// Chooses among what is ready.
pub trait Chooser {
    /// How often it was asked: a count of 64 bits that stops at its end.
    ghost asked: { Self → ℕ };

    /// Chooses one of n. Any answer is lawful, and is taken modulo n.
    fn pick(&mut self, n: u32) -> u32
        ensures { asked self.new ≡ raised (asked self.old) 1 };
}

/// Always chooses the first.
#[derive(Drop)]
pub struct FirstReady {
    asked: u64,
}

impl FirstReady {
    ghost use Rattle.port_base.specs.Choosing.{first_ready_asked};

    /// One that was never asked.
    pub fn new() -> FirstReady
        ensures { first_ready_asked result ≡ 0 }
    {
        FirstReady { asked: 0 }
    }
}

impl Chooser for FirstReady {
    ghost use Rattle.port_base.specs.Choosing.{first_ready_asked};

    ghost asked = { first_ready_asked };

    fn pick(&mut self, _n: u32) -> u32
        ensures asked { first_ready_asked self.new ≡ raised (first_ready_asked self.old) 1 }
        ensures first { result ≡ 0 }
    {
        self.asked = self.asked.saturating_add(1);
        0
    }
}
