//! A worked question with its query, reply and answer, and with their events and actions.

use dns_name::Name;
use lru::DefaultHasher;
use network_model::Forwarder;
use plain_values::PlainList;
use std::alloc::{AllocError, Allocator};
use step_values::{Action, Actions, Client, Event, Path, Why};
use suffix_routes::{Config, Limits, Peer, Route};

const CLIENT: Client = Client::Udp(Peer {
    ip: [10, 0, 0, 7],
    port: 40000,
});

pub(crate) const SERVER: Peer = Peer {
    ip: [192, 0, 2, 1],
    port: 53,
};

/// The route's second server.
pub(crate) const SECOND: Peer = Peer {
    ip: [192, 0, 2, 2],
    port: 53,
};

/// The first word gives identifier 8 and port 1032, each further word the next identifier and the
/// next port.
pub(crate) const WORDS: [u32; 8] = [
    524_296, 589_833, 655_370, 720_907, 786_444, 851_981, 917_518, 983_055,
];

/// The query's path, by the first word.
pub(crate) const PATH: Path = Path::Udp(1032);

/// A question for the address of a.example. The last four octets are type and class.
pub(crate) const QUESTION: [u8; 27] =
    *b"\x12\x34\x01\x00\x00\x01\x00\x00\x00\x00\x00\x00\x01a\x07example\x00\x00\x01\x00\x01";

/// The query to a server for the question.
pub(crate) const QUERY: [u8; 27] =
    *b"\x00\x08\x01\x00\x00\x01\x00\x00\x00\x00\x00\x00\x01a\x07example\x00\x00\x01\x00\x01";

/// The server's reply: 198.51.100.5, for 300 seconds.
pub(crate) const REPLY: &[u8] =
    b"\x00\x08\x85\x00\x00\x01\x00\x01\x00\x00\x00\x00\x01a\x07example\x00\x00\x01\x00\x01\xc0\x0c\x00\x01\x00\x01\x00\x00\x01\x2c\x00\x04\xc6\x33\x64\x05";

/// The reply to the client.
pub(crate) const ANSWER: &[u8] =
    b"\x12\x34\x81\x80\x00\x01\x00\x01\x00\x00\x00\x00\x01a\x07example\x00\x00\x01\x00\x01\xc0\x0c\x00\x01\x00\x01\x00\x00\x01\x2c\x00\x04\xc6\x33\x64\x05";

/// A single route for all names, with two servers.
pub(crate) fn config<A: Allocator + Copy>(alloc: A) -> Result<Config<A>, AllocError> {
    let route = Route {
        suffix: Name::root(),
        deny: false,
        servers: PlainList::copied(alloc, &[SERVER, SECOND])?,
    };
    let mut routes = PlainList::new(alloc);
    routes.push(route)?;
    Ok(Config {
        listen: SERVER,
        limits: Limits::defaults(),
        routes,
    })
}

/// The client sends these octets.
pub(crate) fn sends<A: Allocator + Copy>(alloc: A, bytes: &[u8]) -> Result<Event<A>, AllocError> {
    Ok(Event::Client {
        client: CLIENT,
        bytes: PlainList::copied(alloc, bytes)?,
    })
}

/// These octets come on a path to a server.
pub(crate) fn delivers<A: Allocator + Copy>(
    alloc: A,
    path: Path,
    from: Peer,
    bytes: &[u8],
) -> Result<Event<A>, AllocError> {
    Ok(Event::Delivery {
        path,
        from,
        bytes: PlainList::copied(alloc, bytes)?,
    })
}

/// The server's reply comes.
pub(crate) fn replies<A: Allocator + Copy>(alloc: A) -> Result<Event<A>, AllocError> {
    delivers(alloc, PATH, SERVER, REPLY)
}

/// A new forwarder.
pub(crate) fn new<A: Allocator + Copy>(
    alloc: A,
) -> Result<Forwarder<DefaultHasher, A>, AllocError> {
    Forwarder::new(alloc, config(alloc)?, DefaultHasher::default())
}

/// The forwarder sends the query.
pub(crate) fn ask<A: Allocator + Copy>(
    alloc: A,
    forwarder: &mut Forwarder<DefaultHasher, A>,
) -> Result<(), AllocError> {
    let event = sends(alloc, &QUESTION)?;
    let _outcome = forwarder.step(1000, WORDS, &event)?;
    Ok(())
}

/// A forwarder that has sent the query.
pub(crate) fn asked<A: Allocator + Copy>(
    alloc: A,
) -> Result<Forwarder<DefaultHasher, A>, AllocError> {
    let mut forwarder = new(alloc)?;
    ask(alloc, &mut forwarder)?;
    Ok(forwarder)
}

/// Whether the actions only send these octets to the server from the query's port.
pub(crate) fn send_alone<A: Allocator + Copy>(actions: &Actions<A>, text: &[u8]) -> bool {
    match (actions.get(0), actions.get(1)) {
        (
            Some(
                Action::AskUdp {
                    port,
                    server,
                    bytes,
                },
            ),
            None,
        ) => *port == 1032 && *server == SERVER && bytes.as_slice() == text,
        _ => false,
    }
}

/// Whether the action replies to the client with these octets, for this reason.
pub(crate) fn is_reply<A: Allocator>(action: &Action<A>, text: &[u8], reason: Why) -> bool {
    match action {
        Action::Reply { client, bytes, why } => {
            *client == CLIENT && bytes.as_slice() == text && *why == reason
        }
        _ => false,
    }
}

/// Whether the actions only close the query's port and answer the client.
pub(crate) fn answer_whole<A: Allocator + Copy>(actions: &Actions<A>) -> bool {
    match (actions.get(0), actions.get(1), actions.get(2)) {
        (Some(Action::CloseUdp { port }), Some(reply), None) => {
            *port == 1032 && is_reply(reply, ANSWER, Why::Answered)
        }
        _ => false,
    }
}
