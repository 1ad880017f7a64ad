// A chooser drawn from a number.
ghost use Rattle.std.specs.Prelude.{◌≡◌, ◌+◌, ℕ};
ghost use Rattle.number_order.specs.NumberOrder.{HasGivenWords, number_chooser_asked, order_word};

use port_base::Chooser;
use rand_core::SeedableRng;
use rand_core::utils::NextWord;
use rand_pcg::Lcg64Xsh32;

/// Chooses by the words of a generator that is made from a number: the same number, the same choices.
#[derive(Drop)]
pub struct NumberChooser {
    generator: Lcg64Xsh32,
    asked: u64,
}

impl NumberChooser {
    /// One that was never asked.
    #[tactic(auto, using(crate::proofs::NumberOrder::generator_first))]
    pub fn new(number: u64) -> NumberChooser
        ensures asked { number_chooser_asked result ≡ 0 }
        ensures words { HasGivenWords number 0 result }
    {
        NumberChooser {
            generator: Lcg64Xsh32::seed_from_u64(number),
            asked: 0,
        }
    }
}

impl Chooser for NumberChooser {
    ghost use Rattle.port_base.specs.Bytes.{raised};

    ghost asked = { number_chooser_asked };

    // Each answer is the next word of the number's generator, whatever the count of what is ready.
    #[tactic(auto, using(crate::proofs::NumberOrder::generator_next))]
    fn pick(&mut self, _n: u32) -> u32
        ensures asked { number_chooser_asked self.new ≡ raised (number_chooser_asked self.old) 1 }
        ensures word { (number given : ℕ) → HasGivenWords number given self.old → result ≡ order_word number given }
        ensures words { (number given : ℕ) → HasGivenWords number given self.old
            → HasGivenWords number (given + 1) self.new }
    {
        self.asked = self.asked.saturating_add(1);
        self.generator.next_word()
    }
}
