//! The number of turns that a command asks for.

ghost use Rattle.std.specs.Prelude.{◌≡◌, option_map};
ghost use Rattle.replay_script.specs.Lines.{number_in, read_of};

use crate::arguments::text;
use replay_script::decimal;
use std::rt::Env;

/// How many digits a number of turns may have.
const MOST_DIGITS: usize = 20;

/// The number of turns in the third argument; `None` for any other text.
pub fn read_turns<R: Env>(rt: &R) -> Option<Turns> {
    let mut room = [0u8; MOST_DIGITS];
    Turns::of(text(rt, 3, &mut room)?)
}

/// A number of turns, which [`read_turns`] alone makes, so that none but the written one is served.
#[derive(Clone, Copy, PartialEq, Eq, Debug, Drop)]
pub struct Turns {
    number: u64,
}

impl Turns {
    /// The number that 1 to 20 decimal digits write, up to 2^64 - 1; `None` for another word.
    fn of(word: &str) -> Option<Turns>
        ensures { option_map (λ (turns : Turns). turns.number) result
            ≡ read_of (number_in 20 word.now) }
    {
        let number = decimal(word)?;
        Some(Turns { number })
    }

    /// How many turns are to be served.
    pub fn number(self) -> u64
        ensures { result ≡ self.number }
    {
        self.number
    }
}
