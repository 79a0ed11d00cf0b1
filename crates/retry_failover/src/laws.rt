//! Laws of the table over whole inquiries: a first ask and any failures, in order.

ghost use Rattle.retry_failover.specs.Laws.{AsksAreCounted, AsksTakeTurns, EveryServerIsAsked};

/// An inquiry asks once for its question, and once more for each failure, until its tries are used.
pub fn asks_are_counted()
    ensures { AsksAreCounted }
{}

/// After a truncated reply over UDP the next ask goes over TCP to the same server. After every
/// other failure, and so after each ask over TCP, the next ask goes by UDP to the next server,
/// round the group.
pub fn asks_take_turns()
    ensures { AsksTakeTurns }
{}

/// A group of n servers has been asked whole once n - 1 failures other than truncations over UDP
/// were each followed by an ask.
pub fn every_server_is_asked()
    ensures { EveryServerIsAsked }
{}
