//! Events of a forwarder.

ghost use Rattle.std.specs.Prelude.{◌≡◌, IfOk};

use outstanding::{Octets, Path, Peer, PlainList};
use std::alloc::{AllocError, Allocator, Global};

/// A client: a UDP peer, or the number of a TCP connection that the client opened.
#[derive(Clone, Copy, PartialEq, Eq, Debug)]
pub enum Client {
    Udp(Peer),
    Tcp(u64),
}

/// An event of the forwarder.
#[derive(Drop)]
pub enum Event<A: Allocator = Global> {
    /// A message of a client, without its length over TCP.
    Client {
        client: Client,
        bytes: Octets<A>,
    },
    /// A message on a path to a server.
    Delivery {
        path: Path,
        from: Peer,
        bytes: Octets<A>,
    },
    /// A path to a server can't be used any more.
    PathFailed {
        path: Path,
    },
    /// Time has passed.
    Tick,
    /// The forwarder begins again.
    Restart,
}

impl<A: Allocator + Copy> Event<A> {
    /// An equal event.
    pub fn copy(&self, alloc: A) -> Result<Event<A>, AllocError>
        ensures { IfOk result (λ event. event ≡ self.now) }
    {
        match self {
            Event::Client { client, bytes } => Ok(Event::Client {
                client: *client,
                bytes: PlainList::copied(alloc, bytes.as_slice())?,
            }),
            Event::Delivery { path, from, bytes } => Ok(Event::Delivery {
                path: *path,
                from: *from,
                bytes: PlainList::copied(alloc, bytes.as_slice())?,
            }),
            Event::PathFailed { path } => Ok(Event::PathFailed { path: *path }),
            Event::Tick => Ok(Event::Tick),
            Event::Restart => Ok(Event::Restart),
        }
    }
}
