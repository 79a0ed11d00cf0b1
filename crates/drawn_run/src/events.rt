//! The next event of a run, drawn so that most replies fit an open query.

use crate::draws::Draws;
use crate::ledger::{Ledger, Query};
use crate::octets::{change, set16};
use crate::questions::{client, question};
use crate::replies::reply;
use crate::turns::Turn;
use plain_values::PlainList;
use std::alloc::{AllocError, Global};
use step_values::{Event, Path, StepInput};
use suffix_routes::Peer;

/// A server outside every configuration.
const NO_SERVER: Peer = Peer {
    ip: [192, 0, 2, 99],
    port: 53,
};

/// A query for the address of the root with identifier 8.
const ROOT: &[u8] = b"\x00\x08\x01\x00\x00\x01\x00\x00\x00\x00\x00\x00\x00\x00\x01\x00\x01";

/// A time after which all waiting questions and open queries are due, in milliseconds.
const PAST_ALL: u64 = 60_000;

/// The random words of a step: eight identifiers and ports.
pub(crate) fn words(draws: &mut Draws, turn: Turn) -> [u32; 8] {
    let mut words = [0u32; 8];
    for word in words.iter_mut() {
        let port = draws.below(turn.ports.max(1)) % 65_536;
        *word = port * 65_536 + u32::from(draws.bits());
    }
    words
}

/// A tick at a moment at which everything before is due. All last ticks have this moment, so a
/// query sent meanwhile is not due.
pub(crate) fn last_tick(words: [u32; 8], ledger: &Ledger) -> StepInput {
    let now = match ledger.waiting.last() {
        Some(question) => question.taken.saturating_add(PAST_ALL),
        None => ledger.moment,
    };
    StepInput {
        now,
        words,
        event: Event::Tick,
    }
}

/// The next event of a turn, with these words and this number.
pub(crate) fn draw(
    alloc: Global,
    draws: &mut Draws,
    turn: Turn,
    (words, number): ([u32; 8], u32),
    ledger: &Ledger,
) -> Result<StepInput, AllocError> {
    let now = moment(draws, ledger.moment);
    let choice = draws.below(64);
    let event = if draws.one_in(2000) {
        Event::Restart
    } else if choice < turn.replies {
        delivery(alloc, draws, turn, ledger)?
    } else if choice < turn.replies.saturating_add(2) {
        let path = any_path(draws, turn, ledger);
        Event::PathFailed { path }
    } else if choice < turn.replies.saturating_add(12) {
        Event::Tick
    } else {
        message(alloc, draws, number)?
    };
    Ok(StepInput { now, words, event })
}

/// The next moment: mostly a few milliseconds later, sometimes earlier, seldom so much later that
/// cached data has expired.
fn moment(draws: &mut Draws, before: u64) -> u64 {
    let later = match draws.below(256) {
        0 => draws.pick(&[31_000u32, 301_000, 604_801_000, 691_200_000]),
        1..=7 => draws.below(4000),
        8..=15 => return before.saturating_sub(u64::from(draws.below(100_000))),
        16..=127 => 0,
        _ => draws.below(30),
    };
    before.saturating_add(u64::from(later))
}

/// A message on a path to a server: mostly a reply to an open query, sometimes on another path, of
/// another server, the query itself, or changed on the way.
fn delivery(
    alloc: Global,
    draws: &mut Draws,
    turn: Turn,
    ledger: &Ledger,
) -> Result<Event, AllocError> {
    let (mut path, mut from, asked) = match any_query(draws, ledger) {
        Some(query) => (query.path, query.server, query.octets.as_slice()),
        None => (any_path(draws, turn, ledger), NO_SERVER, ROOT),
    };
    let mut octets = reply(alloc, draws, asked)?;
    match draws.below(32) {
        0 => path = any_path(draws, turn, ledger),
        1 => from = NO_SERVER,
        2 => from.port = from.port.wrapping_add(1),
        3 => set16(&mut octets, 2, 0x0100),
        4 => change(draws, &mut octets, 0)?,
        5 | 6 => change(draws, &mut octets, 2)?,
        _ => {}
    }
    Ok(Event::Delivery {
        path,
        from,
        bytes: PlainList::from_vec(octets),
    })
}

/// The path of an open query, or any path.
fn any_path(draws: &mut Draws, turn: Turn, ledger: &Ledger) -> Path {
    if let Some(query) = any_query(draws, ledger)
        && !draws.one_in(8)
    {
        return query.path;
    }
    if draws.one_in(4) {
        return Path::Tcp(u64::from(draws.below(300)));
    }
    let port = draws.below(turn.ports.max(1)) % 64_512;
    Path::Udp((1024 + port) as u16)
}

/// An open query.
fn any_query<'l>(draws: &mut Draws, ledger: &'l Ledger) -> Option<&'l Query> {
    let place = draws.place(ledger.open.len())?;
    ledger.open.get(place)
}

/// A message of a client. All identifiers of a turn differ.
fn message(alloc: Global, draws: &mut Draws, number: u32) -> Result<Event, AllocError> {
    let client = client(draws);
    let octets = question(alloc, draws, (number % 65_536) as u16)?;
    Ok(Event::Client {
        client,
        bytes: PlainList::from_vec(octets),
    })
}
