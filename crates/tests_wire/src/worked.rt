//! A worked question with its query, reply and answer, and forwarders that ask the question.

ghost use Rattle.std.specs.Prelude.{◌<◌, ◌≤◌, length};

use dns_name::Name;
use lru::DefaultHasher;
use network_model::Forwarder;
use plain_values::PlainList;
use std::alloc::{AllocError, Allocator};
use suffix_routes::{Config, Limits, Peer, Route};

pub(crate) const CLIENT: Peer = Peer {
    ip: [10, 0, 0, 7],
    port: 40000,
};

pub(crate) const SERVER: Peer = Peer {
    ip: [192, 0, 2, 1],
    port: 53,
};

/// The route's second server.
pub(crate) const SECOND: Peer = Peer {
    ip: [192, 0, 2, 2],
    port: 53,
};

/// A question for the address of a.example. The last four octets are type and class.
pub(crate) const QUESTION: [u8; 27] =
    *b"\x12\x34\x01\x00\x00\x01\x00\x00\x00\x00\x00\x00\x01a\x07example\x00\x00\x01\x00\x01";

/// The query to a server for the question.
pub(crate) const QUERY: [u8; 27] =
    *b"\x00\x08\x01\x00\x00\x01\x00\x00\x00\x00\x00\x00\x01a\x07example\x00\x00\x01\x00\x01";

/// The server's reply: 198.51.100.5, for 300 seconds.
pub(crate) const REPLY: &[u8] =
    b"\x00\x08\x85\x00\x00\x01\x00\x01\x00\x00\x00\x00\x01a\x07example\x00\x00\x01\x00\x01\xc0\x0c\x00\x01\x00\x01\x00\x00\x01\x2c\x00\x04\xc6\x33\x64\x05";

/// The answer to the client.
pub(crate) const ANSWER: &[u8] =
    b"\x12\x34\x81\x80\x00\x01\x00\x01\x00\x00\x00\x00\x01a\x07example\x00\x00\x01\x00\x01\xc0\x0c\x00\x01\x00\x01\x00\x00\x01\x2c\x00\x04\xc6\x33\x64\x05";

/// A forwarder with a single route for all names, with a single server.
pub(crate) fn forwarder<A: Allocator + Copy>(
    alloc: A,
) -> Result<Forwarder<DefaultHasher, A>, AllocError> {
    forwarder_to(alloc, &[SERVER])
}

/// A forwarder with a single route for all names, with these servers.
pub(crate) fn forwarder_to<A: Allocator + Copy>(
    alloc: A,
    servers: &[Peer],
) -> Result<Forwarder<DefaultHasher, A>, AllocError>
    requires { (0 < length servers.now) × (length servers.now ≤ 8) }
{
    let route = Route {
        suffix: Name::root(),
        deny: false,
        servers: PlainList::copied(alloc, servers)?,
    };
    let mut routes = PlainList::new(alloc);
    routes.push(route)?;
    let config = Config {
        listen: SERVER,
        limits: Limits::defaults(),
        routes,
    };
    Forwarder::new(alloc, config, DefaultHasher::default())
}
