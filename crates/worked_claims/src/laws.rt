//! Laws about the actions of each row of the table.

ghost use Rattle.worked_claims.specs.Laws.{StepsAskOnceAtMost, StepsCloseOnceAtMost, StepsCloseWhatIsListed};

/// A step asks once at most, and gives up one path at most: that of an ask which was listed before
/// it.
pub fn steps_ask_and_close_once()
    ensures asks { StepsAskOnceAtMost }
    ensures closes { StepsCloseOnceAtMost }
    ensures listed { StepsCloseWhatIsListed }
{}
