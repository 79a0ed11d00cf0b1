//! The line printed after serving.

ghost use Rattle.std.specs.Prelude.{◌≡◌};

use serving_loop::Served;
use std::fmt;

/// The line printed after serving: `turns T lost L`.
#[derive(Clone, Copy, Debug, Drop)]
pub(crate) struct Counted {
    /// How many turns were made.
    turns: u64,
    /// Events that found no memory.
    lost: u64,
}

impl Counted {
    /// The printed part of the counts.
    pub(crate) fn of(served: Served) -> Counted
        ensures { (result.turns ≡ served.turns) × (result.lost ≡ served.lost) }
    {
        Counted {
            turns: served.turns,
            lost: served.lost,
        }
    }
}

impl fmt::Display for Counted {
    ghost use Rattle.std.specs.Prelude.{Some};
    ghost use Rattle.forwarder_commands.specs.Counts.{counted_text};

    ghost output = { λ counted. Some (counted_text counted.turns counted.lost) };

    fn fmt<W: fmt::Write>(&self, f: &mut fmt::Formatter<W>) -> fmt::Result {
        let turns = self.turns;
        let lost = self.lost;
        write!(f, "turns {turns} lost {lost}")
    }
}
