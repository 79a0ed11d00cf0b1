//! Laws about the verdicts.

ghost use Rattle.reply_match.specs.Laws.{StrangersDoNotMatch, WholeIsRead};

/// Octets are a stranger exactly if they do not match the ask: in length, as a reply to a standard
/// query, in identifier, server and question (RFC 5452 9.1).
pub fn strangers_do_not_match()
    ensures { StrangersDoNotMatch }
{}

/// Whole octets can be viewed, and read whole.
pub fn whole_is_read()
    ensures { WholeIsRead }
{}
