//! The theorem, over plain values: no code is mentioned.

ghost use Rattle.theorem_sound.specs.Laws.{RowsKeepWhatExplains, NothingExplainsAStart, RunsAreSound};

/// A history that explains the state before a row explains the state after, too, with the row's
/// step and an owner for each of its replies. The empty history explains a new forwarder.
pub fn rows_keep_what_explains()
    ensures kept { RowsKeepWhatExplains }
    ensures begun { NothingExplainsAStart }
{}

/// The steps of a run from a new forwarder are sound, and ask well after every step.
pub fn runs_are_sound()
    ensures { RunsAreSound }
{}
