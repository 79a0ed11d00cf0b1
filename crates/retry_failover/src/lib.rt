//! Decides what follows a failed ask: an ask of the same server over TCP, an ask of the next
//! server, or nothing.
//!
//! The first ask goes by UDP to the preferred server of the group, a route's servers. After a reply
//! by UDP with TC set, the same server is asked over TCP (RFC 2181 9, RFC 7766 5). After any other
//! failure the next server is asked by UDP, after the last the first. Each ask uses up one try.
#![tactic(auto)]

ghost use Rattle.std.specs.Prelude.{◌≡◌, ◌<◌};
ghost use Rattle.retry_failover.specs.Table.{after_failure};

mod laws;

pub use laws::{asks_are_counted, asks_take_turns, every_server_is_asked};

/// An open ask, and the number of asks that may follow.
#[derive(Clone, Copy, Debug, PartialEq, Eq)]
pub struct Plan {
    /// How many servers the group has.
    pub servers: u8,
    /// The number of asks that a question may cost.
    pub tries: u8,
    /// The number of asks so far, this ask included.
    pub used: u8,
    /// The asked server, by its place in the group from 0.
    pub server: u8,
    /// Whether this ask went over TCP.
    pub tcp: bool,
}

/// How an ask failed.
#[derive(Clone, Copy, Debug, PartialEq, Eq)]
pub enum Failure {
    /// No reply came in time.
    TimedOut,
    /// Its path failed: a port or a connection.
    Broken,
    /// The reply has TC set: truncated (RFC 1035 4.1.1).
    Truncated,
    /// The reply cannot be read whole.
    Malformed,
    /// The reply's RCODE is neither 0 nor 3.
    Rcode,
    /// The reply is whole, but neither answers nor denies: a referral, for instance.
    Lame,
}

/// The next step after a failure. A server is its place in the group, counted from 0.
#[derive(Clone, Copy, Debug, PartialEq, Eq)]
pub enum Next {
    /// Ask this server by UDP.
    AskUdp(u8),
    /// Ask this server over TCP.
    AskTcp(u8),
    /// Ask no more.
    GiveUp,
}

/// The next step after the failure of an ask. `Nothing` if all tries are used; otherwise, after a
/// truncated reply over UDP, the same server over TCP; otherwise the next server of the group by
/// UDP, the first after the last. The caller makes sure that the asked server is in the group.
pub fn after(plan: &Plan, failure: Failure) -> Next
    requires { plan.now.server < plan.now.servers }
    ensures { result ≡ after_failure plan.now failure }
{
    if plan.used == plan.tries {
        return Next::GiveUp;
    }
    if failure == Failure::Truncated && !plan.tcp {
        return Next::AskTcp(plan.server);
    }
    Next::AskUdp((plan.server + 1) % plan.servers)
}
