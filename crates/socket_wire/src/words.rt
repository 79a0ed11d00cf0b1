//! The random words of a wire.

ghost use Rattle.std.specs.Prelude.{◌≡◌, true};
ghost use Rattle.rand_chacha.specs.ChaCha.{of_seed};
ghost use Rattle.socket_wire.specs.Words.{GivesWords};

use rand_chacha::ChaCha12Rng;
use rand_core::SeedableRng;
use rand_core::utils::NextWord;

/// Random words. Unspent words are given again: they were sent to nobody and reveal nothing.
#[derive(Drop)]
pub(crate) struct Words {
    random: ChaCha12Rng,
    drawn: [u32; 8],
    is_spent: bool,
}

impl Words {
    /// Starts from this seed; no words were given.
    pub fn new(seed: [u8; 32]) -> Words
        ensures { (result.random ≡ of_seed seed) × (result.is_spent ≡ true) }
    {
        Words {
            random: ChaCha12Rng::from_seed(seed),
            drawn: [0; 8],
            is_spent: true,
        }
    }

    /// Returns the last words again, or new words if those are spent.
    pub fn next(&mut self) -> [u32; 8]
        ensures { GivesWords result self.old self.new }
    {
        if self.is_spent {
            let random = &mut self.random;
            self.drawn = [
                random.next_word(),
                random.next_word(),
                random.next_word(),
                random.next_word(),
                random.next_word(),
                random.next_word(),
                random.next_word(),
                random.next_word(),
            ];
            self.is_spent = false;
        }
        self.drawn
    }

    /// Marks the words as spent: the next ones are new.
    pub fn spend(&mut self)
        ensures { self.new ≡ record self.old { is_spent = true } }
    {
        self.is_spent = true;
    }
}
