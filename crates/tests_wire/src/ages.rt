//! Moments and random words at each age of a wire, and the consequences of a stall. Ports 15388 to
//! 15393, 15397 and 15401 have to be free. A wire is forgotten, as in `sockets`.

use crate::came::{Came, came_next, clients_that_came, here, is_sent, reply_to, settle};
use crate::system::{System, TURNS, expected, local, moment_in_turn, send};
use crate::watched::AGES;
use crate::worked::QUESTION;
use mio::net::{TcpStream, UdpSocket};
use network_model::{Arrival, Wire};
use plain_values::PlainList;
use socket_wire::MioWire;
use std::io::Read;
use std::mem::forget;
use std::test::Fail;
use std::time::Duration;
use step_values::Action;
use suffix_routes::Limits;

/// Times of the clock, in seconds and nanoseconds since the wire was made, each with the moment:
/// whole milliseconds, at most 2^64 - 1. If the clock goes back, the last moment stays.
const TIMES: [(u64, u32, u64); 9] = [
    (0, 250_000_000, 250),
    (11, 0, 11_000),
    (3_600, 0, 3_600_000),
    (3_601, 0, 3_601_000),
    (50 * 86_400, 999_999, 4_320_000_000),
    (50 * 86_400 + 1, 0, 4_320_001_000),
    (8, 0, 4_320_001_000),
    (18_446_744_073_709_551, 615_000_000, u64::MAX),
    (u64::MAX, 0, u64::MAX),
];

/// The number of right moments before the first wrong one.
fn moments_that_come(system: &System<'_>, wire: &mut MioWire<'_, System<'_>>) -> usize {
    for (place, (seconds, nanos, moment)) in TIMES.iter().enumerate() {
        let whole = Duration::from_secs(*seconds);
        system.time.set(whole.saturating_add(Duration::from_nanos(u64::from(*nanos))));
        if moment_in_turn(wire) != *moment {
            return place;
        }
    }
    TIMES.len()
}

/// 50 days are 4,320,000,000 ms, more than 32 bits can count.
#[test]
fn moments_are_those_of_the_clock(rt: HostRuntime) -> Result<(), Fail> {
    let system = System::new(&rt);
    system.time.set(Duration::ZERO);
    let mut wire = MioWire::new(&system, rt.alloc(), local(15388), &Limits::defaults())?;
    let come = moments_that_come(&system, &mut wire);
    forget(wire);
    assert_eq!(rt; come, TIMES.len());
    Ok(())
}

/// The next datagram's moment. A second passes between the datagram's arrival and its step.
fn moment_of_datagram(system: &System<'_>, wire: &mut MioWire<'_, System<'_>>) -> Option<u64> {
    for _ in 0..TURNS {
        let came = wire.arrival();
        if let Ok(Arrival::ClientDatagram { .. }) = came {
            system.pass(Duration::from_secs(1));
            return Some(wire.moment());
        }
    }
    None
}

/// The moments of three turns. In the first nothing arrives, and the clock reaches this age. In the
/// second a datagram arrives, and a second later, in the third, another.
fn moments_of_turns(
    system: &System<'_>,
    wire: &mut MioWire<'_, System<'_>>,
    client: &UdpSocket,
    age: u64,
) -> Option<[u64; 3]> {
    settle(wire);
    let _nothing = wire.arrival();
    system.time.set(Duration::from_millis(age));
    let after_nothing = wire.moment();
    let _first = is_sent(client, &QUESTION, 15397);
    let _second = is_sent(client, &QUESTION, 15397);
    let first = moment_of_datagram(system, wire)?;
    let second = moment_of_datagram(system, wire)?;
    Some([after_nothing, first, second])
}

/// The number of ages, before the first failure, at which each of these turns has its own moment. A
/// tick's moment, with nothing arriving, is read after the wait.
fn ages_with_moments(
    system: &System<'_>,
    wire: &mut MioWire<'_, System<'_>>,
    client: &UdpSocket,
) -> usize {
    for (place, age) in AGES.iter().enumerate() {
        let later = age.saturating_add(1_000);
        if moments_of_turns(system, wire, client, *age) != Some([*age, *age, later]) {
            return place;
        }
    }
    AGES.len()
}

#[test]
fn an_arrival_has_the_moment_of_its_turn(rt: HostRuntime) -> Result<(), Fail> {
    let system = System::new(&rt);
    system.time.set(Duration::ZERO);
    let client = UdpSocket::bind(&rt, here(0))?;
    let mut wire = MioWire::new(&system, rt.alloc(), local(15397), &Limits::defaults())?;
    let ages = ages_with_moments(&system, &mut wire, &client);
    forget(wire);
    assert_eq!(rt; ages, AGES.len());
    Ok(())
}

/// The moment of a datagram, found by a wire of this age after the wait. Each reading moves the
/// clock on by 1 ms, so no socket is tried before.
fn moment_after_wait(
    system: &System<'_>,
    wire: &mut MioWire<'_, System<'_>>,
    client: &UdpSocket,
    age: u64,
) -> Option<u64> {
    system.time.set(Duration::from_millis(age));
    settle(wire);
    system.step.set(Duration::from_millis(1));
    let _sent = is_sent(client, &QUESTION, 15401);
    let moment = moment_of_datagram(system, wire);
    system.step.set(Duration::ZERO);
    moment
}

/// The number of ages, before the first failure, at which this moment is from the turn's second
/// reading.
fn ages_with_moment_after_wait(
    system: &System<'_>,
    wire: &mut MioWire<'_, System<'_>>,
    client: &UdpSocket,
) -> usize {
    for (place, age) in AGES.iter().enumerate() {
        let later = age.saturating_add(1);
        if moment_after_wait(system, wire, client, *age) != Some(later) {
            return place;
        }
    }
    AGES.len()
}

#[test]
fn an_arrival_in_a_wait_has_the_moment_after_it(rt: HostRuntime) -> Result<(), Fail> {
    let system = System::new(&rt);
    system.time.set(Duration::ZERO);
    let client = UdpSocket::bind(&rt, here(0))?;
    let mut wire = MioWire::new(&system, rt.alloc(), local(15401), &Limits::defaults())?;
    let ages = ages_with_moment_after_wait(&system, &mut wire, &client);
    forget(wire);
    assert_eq!(rt; ages, AGES.len());
    Ok(())
}

/// The octets 0 to 31, then the octets 0 to 30 and another last octet.
const SEED: [u8; 32] = [
    0, 1, 2, 3, 4, 5, 6, 7, 8, 9, 10, 11, 12, 13, 14, 15, 16, 17, 18, 19, 20, 21, 22, 23, 24, 25,
    26, 27, 28, 29, 30, 31,
];

const OTHER_SEED: [u8; 32] = [
    0, 1, 2, 3, 4, 5, 6, 7, 8, 9, 10, 11, 12, 13, 14, 15, 16, 17, 18, 19, 20, 21, 22, 23, 24, 25,
    26, 27, 28, 29, 30, 32,
];

/// The words of ChaCha with 12 rounds for the first seed, eight for each age, by another program.
const WORDS: [[u32; 8]; 5] = [
    [
        4294521330, 1590065873, 636683588, 2856380887, 526390089, 3158752962, 3284845545, 907680473,
    ],
    [
        145965145, 2675738050, 1424152105, 2597595269, 169552737, 375224038, 4222518757, 2038969926,
    ],
    [
        2694511212, 3765582723, 1377131739, 1183043901, 3943468597, 1214520110, 842046724,
        377876094,
    ],
    [
        2740897314, 3585583704, 3654437133, 3236633365, 522638553, 1701629000, 1009486463,
        2291130599,
    ],
    [
        1402042110, 4104538314, 3817764684, 1031325817, 3651493123, 3676478870, 731252994,
        353883252,
    ],
];

/// The first words for the other seed.
const OTHER_WORDS: [u32; 8] = [
    4250031675, 3836005965, 1153169596, 539325315, 3738562017, 26829547, 77443900, 3866314460,
];

/// The number of ages, before the first failure, with these words: unchanged at a second call, and
/// the next words after a query, whatever becomes of the query.
fn ages_with_words(
    system: &System<'_>,
    wire: &mut MioWire<'_, System<'_>>,
    query: &Action,
) -> usize {
    for (place, (age, words)) in AGES.iter().zip(&WORDS).enumerate() {
        system.time.set(Duration::from_millis(*age));
        let _moment = moment_in_turn(wire);
        if wire.words() != *words || wire.words() != *words {
            return place;
        }
        let _sent = wire.put(query);
    }
    AGES.len()
}

#[test]
fn words_are_those_of_the_seed_at_each_age(rt: HostRuntime) -> Result<(), Fail> {
    let system = System::new(&rt);
    system.time.set(Duration::ZERO);
    system.seed.set(Some(SEED));
    let query = Action::AskUdp {
        port: 15390,
        server: local(15391),
        bytes: PlainList::copied(rt.alloc(), &QUESTION)?,
    };
    let mut wire = MioWire::new(&system, rt.alloc(), local(15389), &Limits::defaults())?;
    let ages = ages_with_words(&system, &mut wire, &query);
    forget(wire);
    assert_eq!(rt; ages, AGES.len());
    Ok(())
}

#[test]
fn another_seed_gives_other_words(rt: HostRuntime) -> Result<(), Fail> {
    let system = System::new(&rt);
    system.seed.set(Some(OTHER_SEED));
    let mut wire = MioWire::new(&system, rt.alloc(), local(15392), &Limits::defaults())?;
    let words = wire.words();
    forget(wire);
    assert_eq!(rt; words, OTHER_WORDS);
    Ok(())
}

/// The number of clients reported as ended in the next turns.
fn ends(wire: &mut MioWire<'_, System<'_>>) -> u32 {
    let mut count = 0u32;
    for _ in 0..8u8 {
        if let Ok(Arrival::ClientClosed { .. }) = wire.arrival() {
            count = count.saturating_add(1);
        }
        let _moment = wire.moment();
    }
    count
}

/// Three clients, each beginning a question. Two send the rest, still unread.
fn three_clients(
    system: &System<'_>,
    wire: &mut MioWire<'_, System<'_>>,
) -> Result<Vec<TcpStream>, Fail> {
    let mut clients = clients_that_came(system, wire, 15393, b"\x00\x1b\x12", 3)?;
    for place in 0..2usize {
        if let Some(client) = clients.get_mut(place) {
            send(client, &QUESTION[1..])?;
        }
    }
    Ok(clients)
}

/// Puts a reply to the numbered client.
fn is_replied(
    system: &System<'_>,
    wire: &mut MioWire<'_, System<'_>>,
    conn: u64,
) -> Result<bool, Fail> {
    let reply = reply_to(system.host.alloc(), conn, 12)?;
    Ok(wire.put(&reply).is_ok())
}

/// Whether these two questions get replies, and only one client is closed, after a sweep.
fn are_replied(
    system: &System<'_>,
    wire: &mut MioWire<'_, System<'_>>,
    clients: &mut [TcpStream],
    first: u64,
    second: u64,
) -> Result<bool, Fail> {
    system.time.set(Duration::from_millis(3_600_010));
    let ended = ends(wire);
    let replied = is_replied(system, wire, first)? && is_replied(system, wire, second)?;
    let mut room = [0u8; 64];
    for place in 0..2usize {
        if let Some(client) = clients.get_mut(place) {
            expected(client.read(&mut room)? == 14, "another reply")?;
        }
    }
    Ok(ended == 1 && replied)
}

/// Whether the two questions arrive after a stall of an hour and get replies, and only the third
/// client, silent in that time, is closed.
fn outlives_a_stall(system: &System<'_>, wire: &mut MioWire<'_, System<'_>>) -> Result<bool, Fail> {
    let mut clients = three_clients(system, wire)?;
    system.time.set(Duration::from_millis(3_600_000));
    let first = came_next(wire);
    let second = came_next(wire);
    match (first, second) {
        (Came::Piece(first, 26), Came::Piece(second, 26)) => {
            are_replied(system, wire, &mut clients, first, second)
        }
        _ => Ok(false),
    }
}

/// Octets sent before the end of a stall are read before the client is judged silent.
#[test]
fn questions_that_came_in_a_stall_are_answered(rt: HostRuntime) -> Result<(), Fail> {
    let system = System::new(&rt);
    system.time.set(Duration::ZERO);
    let mut wire = MioWire::new(&system, rt.alloc(), local(15393), &Limits::defaults())?;
    let outlives = outlives_a_stall(&system, &mut wire);
    forget(wire);
    assert!(rt; outlives?);
    Ok(())
}
