//! Laws about use and service, over plain values: no code is mentioned.

ghost use Rattle.theorem_use.specs.Laws.{NobodyWaitsForWhatCame, NothingFullyExplainsAStart, RowsKeepWhatFullyExplains};
ghost use Rattle.theorem_use.specs.Laws.{RunsServeTruly};

/// A history that fully explains the state before a row explains the state after, too, with the
/// row's step and an owner for each of its replies: the entries mirror the standing pieces, and a
/// known question owns its reply. The empty history fully explains a new forwarder.
pub fn rows_keep_what_fully_explains()
    ensures kept { RowsKeepWhatFullyExplains }
    ensures begun { NothingFullyExplainsAStart }
{}

/// A run from a new forwarder serves truly. With one list of owners the run is sound, says when
/// more is due, and asks well. A question is answered at once if enough data stands, the cache has
/// room for everything carried in the era, and memory was found; or if recent pieces answer the
/// question.
pub fn runs_serve_truly()
    ensures { RunsServeTruly }
{}

/// After a step that accepts a reply with a set or a denial, nobody waits for the reply's question.
pub fn nobody_waits_for_what_came()
    ensures { NobodyWaitsForWhatCame }
{}
