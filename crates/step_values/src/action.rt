//! The actions of a forwarder, and the reason of each reply.

ghost use Rattle.std.specs.Prelude.{◌≡◌, IfOk};

use crate::event::Client;
use outstanding::{FewList, Octets, Peer, PlainList};
use std::alloc::{AllocError, Allocator, Global};

/// The reason of a reply.
#[derive(Clone, Copy, PartialEq, Eq, Debug)]
pub enum Why {
    /// An answer: NOERROR, or NXDOMAIN.
    Answered,
    /// The message does not have exactly one question, or an unreadable question: FORMERR.
    BadFormat,
    /// The opcode is not QUERY: NOTIMP.
    BadOpcode,
    /// The type or class is not served: NOTIMP.
    NotServed,
    /// No configured suffix is at or above the name: REFUSED.
    NoRoute,
    /// As many questions as may wait are waiting: SERVFAIL.
    QuestionsFull,
    /// As many inquiries as may be open are open: SERVFAIL.
    InquiriesFull,
    /// No port was free for the query: SERVFAIL.
    NoPort,
    /// Every try failed: SERVFAIL.
    Exhausted,
    /// The question waited too long: SERVFAIL.
    Deadline,
    /// The chain of aliases is too long: SERVFAIL.
    ChainLong,
    /// The answer is longer than 65,535 octets: SERVFAIL.
    TooLarge,
    /// All tries failed, and the cache had a set that expired within the configured window: NOERROR
    /// (RFC 8767 4).
    Stale,
    /// The configuration denies the name, or a name to which its aliases lead: NXDOMAIN.
    LocalDenied,
}

/// An action for the caller to carry out.
#[derive(Drop)]
pub enum Action<A: Allocator = Global> {
    /// Send a query from this UDP port.
    AskUdp {
        port: u16,
        server: Peer,
        bytes: Octets<A>,
    },
    /// Open this TCP connection and send a query.
    AskTcp {
        conn: u64,
        server: Peer,
        bytes: Octets<A>,
    },
    /// Give up this UDP port.
    CloseUdp {
        port: u16,
    },
    /// Close this TCP connection.
    CloseTcp {
        conn: u64,
    },
    /// Send a reply to a client.
    Reply {
        client: Client,
        bytes: Octets<A>,
        why: Why,
    },
}

/// Actions, in order. Most steps have a single action, and listing it does not allocate.
pub type Actions<A> = FewList<Action<A>, A>;

impl<A: Allocator + Copy> Action<A> {
    /// An equal action.
    pub fn copy(&self, alloc: A) -> Result<Action<A>, AllocError>
        ensures { IfOk result (λ action. action ≡ self.now) }
    {
        match self {
            Action::AskUdp {
                port,
                server,
                bytes,
            } => Ok(Action::AskUdp {
                port: *port,
                server: *server,
                bytes: PlainList::copied(alloc, bytes.as_slice())?,
            }),
            Action::AskTcp {
                conn,
                server,
                bytes,
            } => Ok(Action::AskTcp {
                conn: *conn,
                server: *server,
                bytes: PlainList::copied(alloc, bytes.as_slice())?,
            }),
            Action::CloseUdp { port } => Ok(Action::CloseUdp { port: *port }),
            Action::CloseTcp { conn } => Ok(Action::CloseTcp { conn: *conn }),
            Action::Reply { client, bytes, why } => Ok(Action::Reply {
                client: *client,
                bytes: PlainList::copied(alloc, bytes.as_slice())?,
                why: *why,
            }),
        }
    }
}
