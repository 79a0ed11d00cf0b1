//! An ask, and its path.

ghost use Rattle.std.specs.Prelude.{◌≡◌};
ghost use Rattle.outstanding.specs.Lists.{same_path};
ghost use Rattle.outstanding.specs.Orders.{path_number};

use dns_message::Question;
use std::alloc::{Allocator, Global};
use std::marker::Model;
use suffix_routes::{Peer, RouteId};

/// The path of an ask and of its reply.
#[derive(Clone, Copy, Debug, PartialEq, Eq, PartialOrd, Ord)]
pub enum Path {
    /// By UDP, from this local port.
    Udp(u16),
    /// Over TCP, on the connection of this number.
    Tcp(u64),
}

impl Path {
    /// Whether both are the same port, or the same connection.
    pub fn is_same(self, other: Path) -> bool
        ensures { result ≡ same_path self other }
    {
        match (self, other) {
            (Path::Udp(port), Path::Udp(other)) => port == other,
            (Path::Tcp(connection), Path::Tcp(other)) => connection == other,
            _ => false,
        }
    }

    /// The number that a search compares first: the port, and for every connection one number above
    /// the ports. So different numbers decide the order of paths.
    #[inline]
    pub(crate) fn number(self) -> u32
        ensures { result ≡ path_number self }
    {
        match self {
            Path::Udp(port) => u32::from(port),
            Path::Tcp(_) => 65_536,
        }
    }
}

/// A question, sent to a server, that may still be answered.
#[derive(Drop)]
pub struct Ask<A: Allocator = Global> {
    /// The question, in its sent spelling.
    pub question: Question<A>,
    /// The route of the question's name.
    pub route: RouteId,
    /// The place of the asked server among the servers of the route, from 0.
    pub server: usize,
    /// The asked server.
    pub peer: Peer,
    /// The number of tries of the inquiry so far, this ask included.
    pub used: u8,
    /// The path of the reply.
    pub path: Path,
    /// The identifier of the message (RFC 1035 4.1.1).
    pub id: u16,
    /// The moment of asking, in milliseconds, at most 2^62.
    pub asked: u64,
}

impl<A: Allocator> Model for Ask<A> {
    ghost use Rattle.outstanding.specs.Values.{Ask};

    ghost Value = { Ask };

    ghost view = { λ a. record {
      question = a.question;
      route = a.route;
      server = a.server;
      peer = a.peer;
      used = a.used;
      path = a.path;
      id = a.id;
      asked = a.asked;
    } };
}
