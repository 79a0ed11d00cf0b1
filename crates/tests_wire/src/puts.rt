//! The puts on a wire.

use crate::worked::{ANSWER, CLIENT, QUERY, SECOND, SERVER};
use std::alloc::Allocator;
use step_values::{Action, Client, Path, Why};
use suffix_routes::Peer;

/// The answer to the client after all tries failed.
const FAILED: [u8; 27] =
    *b"\x12\x34\x81\x82\x00\x01\x00\x00\x00\x00\x00\x00\x01a\x07example\x00\x00\x01\x00\x01";

/// The query goes to the server from the query's port.
fn asks<A: Allocator>(put: &(Action<A>, bool)) -> bool {
    asks_at(put, SERVER, true)
}

/// The query goes to this server from the query's port, and is taken or refused.
fn asks_at<A: Allocator>(put: &(Action<A>, bool), at: Peer, taken: bool) -> bool {
    match put {
        (
            Action::AskUdp {
                port,
                server,
                bytes,
            },
            sent,
        ) => *port == 1032
            && *server == at
            && bytes.as_slice() == QUERY.as_slice()
            && *sent == taken,
        _ => false,
    }
}

/// The query's port is given up.
fn closes<A: Allocator>(put: &(Action<A>, bool)) -> bool {
    gives_up(put, true)
}

/// The query's port is given up; the put is taken or refused.
fn gives_up<A: Allocator>(put: &(Action<A>, bool), taken: bool) -> bool {
    match put {
        (Action::CloseUdp { port }, sent) => *port == 1032 && *sent == taken,
        _ => false,
    }
}

/// The client gets the answer.
fn answers<A: Allocator>(put: &(Action<A>, bool)) -> bool {
    replies(put, ANSWER, Why::Answered, true)
}

/// A refused put: SERVFAIL for the client after all tries failed, with the question.
fn fails<A: Allocator>(put: &(Action<A>, bool)) -> bool {
    replies(put, &FAILED, Why::Exhausted, false)
}

/// A reply to the client; the put is taken or refused.
fn replies<A: Allocator>(put: &(Action<A>, bool), text: &[u8], reason: Why, taken: bool) -> bool {
    match put {
        (Action::Reply { client, bytes, why }, sent) => {
            *client == Client::Udp(CLIENT)
                && bytes.as_slice() == text
                && *why == reason
                && *sent == taken
        }
        _ => false,
    }
}

/// The kinds of puts on a wire that tests distinguish.
#[derive(Clone, Copy, PartialEq, Eq, Debug)]
pub(crate) enum Puts {
    Nothing,
    /// The query.
    Asked,
    /// The query, the path's end, and the query to the second server.
    AskedAgain,
    /// The query, the path's end, and the answer.
    Answered,
    /// The refused query, the path's end, the query to the second server, the path's end, and the
    /// answer.
    AnsweredBySecond,
    /// All puts refused: each try's query and path's end, in turn to both servers, and the reply.
    Refused,
    Other,
}

/// Whether the put at this place is as in [`Puts::Refused`].
fn is_refused_at<A: Allocator>(place: usize, put: &(Action<A>, bool)) -> bool {
    match place {
        0 | 4 => asks_at(put, SERVER, false),
        2 | 6 => asks_at(put, SECOND, false),
        8 => fails(put),
        _ => gives_up(put, false),
    }
}

/// Whether these are all puts of [`Puts::Refused`].
fn are_refused<A: Allocator>(puts: &[(Action<A>, bool)]) -> bool {
    for (place, put) in puts.iter().enumerate() {
        if !is_refused_at(place, put) {
            return false;
        }
    }
    puts.len() == 9
}

/// Whether these are the puts of [`Puts::AnsweredBySecond`].
fn are_by_second<A: Allocator>(puts: &[(Action<A>, bool)]) -> bool {
    match puts {
        [first, second, third, fourth, fifth] => {
            asks_at(first, SERVER, false)
                && closes(second)
                && asks_at(third, SECOND, true)
                && closes(fourth)
                && answers(fifth)
        }
        _ => false,
    }
}

/// Whether these are the puts of [`Puts::AskedAgain`].
fn are_asked_again<A: Allocator>(puts: &[(Action<A>, bool)]) -> bool {
    match puts {
        [first, second, third] => asks(first) && closes(second) && asks_at(third, SECOND, true),
        _ => false,
    }
}

/// The kind of puts.
pub(crate) fn puts_of<A: Allocator>(puts: &[(Action<A>, bool)]) -> Puts {
    match puts {
        [] => Puts::Nothing,
        [put] if asks(put) => Puts::Asked,
        [first, second, third] if asks(first) && closes(second) && answers(third) => Puts::Answered,
        _ if are_asked_again(puts) => Puts::AskedAgain,
        _ if are_by_second(puts) => Puts::AnsweredBySecond,
        _ if are_refused(puts) => Puts::Refused,
        _ => Puts::Other,
    }
}

/// An ask's path.
fn asked_on<A: Allocator>(action: &Action<A>) -> Option<Path> {
    match action {
        Action::AskUdp { port, .. } => Some(Path::Udp(*port)),
        Action::AskTcp { conn, .. } => Some(Path::Tcp(*conn)),
        _ => None,
    }
}

/// The given-up path.
fn closed<A: Allocator>(action: &Action<A>) -> Option<Path> {
    match action {
        Action::CloseUdp { port } => Some(Path::Udp(*port)),
        Action::CloseTcp { conn } => Some(Path::Tcp(*conn)),
        _ => None,
    }
}

/// Whether after each unsent ask the next put closes the ask's path.
pub(crate) fn are_given_up<A: Allocator>(puts: &[(Action<A>, bool)]) -> bool {
    let mut failed = None;
    for (action, sent) in puts {
        if failed.is_some() && closed(action) != failed {
            return false;
        }
        failed = if *sent { None } else { asked_on(action) };
    }
    failed.is_none()
}

/// The number of unsent puts, and of unsent asks.
pub(crate) fn unsent<A: Allocator>(puts: &[(Action<A>, bool)]) -> (u64, u64) {
    let (mut all, mut asks) = (0u64, 0u64);
    for (action, sent) in puts {
        if !*sent {
            all = all.saturating_add(1);
            if asked_on(action).is_some() {
                asks = asks.saturating_add(1);
            }
        }
    }
    (all, asks)
}
