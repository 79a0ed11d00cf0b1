//! Sockets found by their events alone: while the clock is stopped, no socket is tried without a
//! reported event. Each kind is tested at each age of a wire, and after a million faults. `clients`
//! and `servers` have the cases. Ports 15373 to 15387, 15394 to 15396 and 15402 have to be free. A
//! wire is forgotten, as in `sockets`.

use crate::came::{reply_to, settle};
use crate::clients::{
    crowd_comes, datagram_comes, many_come, pieces_come, question_comes_again, rest_comes,
};
use crate::servers::{
    query_comes_later, replies_come_over_tcp, reply_comes_among_datagrams, reply_comes_by_udp,
};
use crate::system::{System, expected, local};
use network_model::Wire;
use socket_wire::MioWire;
use std::alloc::Global;
use std::mem::forget;
use std::test::Fail;
use std::time::Duration;
use suffix_routes::Limits;

/// The ages of a wire, in ms: the start; past the time for which a silent client is kept; an hour;
/// 50 days; a second before the last moment of 64 bits.
pub(crate) const AGES: [u64; 5] = [0, 11_000, 3_600_000, 4_320_000_000, u64::MAX - 1_000];

/// The number of faults before each case.
const FAULTS: u32 = 1_000_000;

/// The listening port of the wire with those faults. The next two ports are a server's and a
/// query's.
const BEHIND_FAULTS: u16 = 15394;

/// A case of arrivals over a wire.
#[derive(Clone, Copy)]
enum Case {
    /// A client's datagram.
    Datagram,
    /// A new client's question, in two pieces.
    Pieces,
    /// The reply to a query by UDP.
    ByUdp,
    /// The reply to a query over TCP, for several numbers of the connection.
    OverTcp,
    /// A query over TCP, with a connection that opens a second later: at the server.
    Opens,
    /// A client's question, 10 ms after the reply to an earlier question.
    Again,
    /// The rest of a client's replies that the system did not take at once.
    Rest,
    /// A datagram and three new clients, all before a single turn.
    Many,
    /// A piece from each of 64 clients, all before a single turn.
    Crowd,
    /// The reply to a query by UDP, among datagrams arriving without a pause.
    Among,
}

/// All cases.
const CASES: [Case; 10] = [
    Case::Datagram,
    Case::Pieces,
    Case::ByUdp,
    Case::OverTcp,
    Case::Opens,
    Case::Again,
    Case::Rest,
    Case::Many,
    Case::Crowd,
    Case::Among,
];

impl Case {
    /// The wire's listening port. The next two ports are a server's and a query's.
    fn listen(self) -> u16 {
        match self {
            Case::Datagram => 15373,
            Case::Pieces => 15374,
            Case::ByUdp => 15375,
            Case::OverTcp => 15378,
            Case::Again => 15380,
            Case::Rest => 15381,
            Case::Many => 15382,
            Case::Among => 15383,
            Case::Opens => 15386,
            Case::Crowd => 15402,
        }
    }
}

/// Whether the case passes, once nothing is noted as ready.
fn passes(
    system: &System<'_>,
    wire: &mut MioWire<'_, System<'_>>,
    case: Case,
    port: u16,
) -> Result<bool, Fail> {
    settle(wire);
    let server = port.saturating_add(1);
    match case {
        Case::Datagram => datagram_comes(system, wire, port),
        Case::Pieces => pieces_come(system, wire, port),
        Case::ByUdp => reply_comes_by_udp(system, wire, server),
        Case::OverTcp => replies_come_over_tcp(system, wire, server),
        Case::Opens => query_comes_later(system, wire, server),
        Case::Again => question_comes_again(system, wire, port),
        Case::Rest => rest_comes(system, wire, port),
        Case::Many => many_come(system, wire, port),
        Case::Crowd => crowd_comes(system, wire, port),
        Case::Among => reply_comes_among_datagrams(system, wire, port),
    }
}

/// Lets the wire count a million faults: replies to a client that never came.
fn count_faults(alloc: Global, wire: &mut MioWire<'_, System<'_>>) -> Result<(), Fail> {
    let reply = reply_to(alloc, u64::MAX, 12)?;
    for _ in 0..FAULTS {
        let _refused = wire.put(&reply);
    }
    expected(wire.faults() >= u64::from(FAULTS), "fewer faults")
}

/// The number of ages, before the first failure, at which the case passes.
fn ages_passed(
    system: &System<'_>,
    wire: &mut MioWire<'_, System<'_>>,
    case: Case,
) -> Result<usize, Fail> {
    for (place, age) in AGES.iter().enumerate() {
        system.time.set(Duration::from_millis(*age));
        if !passes(system, wire, case, case.listen())? {
            return Ok(place);
        }
    }
    Ok(AGES.len())
}

/// The number of ages at which the case passes over a new wire. The wire is forgotten.
fn ages_passed_anew(rt: &HostRuntime, case: Case) -> Result<usize, Fail> {
    let system = System::new(rt);
    system.time.set(Duration::ZERO);
    let mut wire = MioWire::new(
        &system,
        rt.alloc(),
        local(case.listen()),
        &Limits::defaults(),
    )?;
    let passed = ages_passed(&system, &mut wire, case);
    forget(wire);
    passed
}

/// The number of cases, before the first failure, that pass after a million faults.
fn cases_passed(system: &System<'_>, wire: &mut MioWire<'_, System<'_>>) -> Result<usize, Fail> {
    count_faults(system.host.alloc(), wire)?;
    for (place, case) in CASES.iter().enumerate() {
        if !passes(system, wire, *case, BEHIND_FAULTS)? {
            return Ok(place);
        }
    }
    Ok(CASES.len())
}

#[test]
fn all_comes_after_a_million_faults(rt: HostRuntime) -> Result<(), Fail> {
    let system = System::new(&rt);
    system.time.set(Duration::ZERO);
    let mut wire = MioWire::new(
        &system,
        rt.alloc(),
        local(BEHIND_FAULTS),
        &Limits::defaults(),
    )?;
    let passed = cases_passed(&system, &mut wire);
    forget(wire);
    assert_eq!(rt; passed?, CASES.len());
    Ok(())
}

#[test]
fn a_datagram_comes(rt: HostRuntime) -> Result<(), Fail> {
    assert_eq!(rt; ages_passed_anew(&rt, Case::Datagram)?, AGES.len());
    Ok(())
}

#[test]
fn two_pieces_of_a_question_come(rt: HostRuntime) -> Result<(), Fail> {
    assert_eq!(rt; ages_passed_anew(&rt, Case::Pieces)?, AGES.len());
    Ok(())
}

#[test]
fn the_reply_to_a_query_by_udp_comes(rt: HostRuntime) -> Result<(), Fail> {
    assert_eq!(rt; ages_passed_anew(&rt, Case::ByUdp)?, AGES.len());
    Ok(())
}

#[test]
fn the_reply_to_a_query_over_tcp_comes_at_each_number(rt: HostRuntime) -> Result<(), Fail> {
    assert_eq!(rt; ages_passed_anew(&rt, Case::OverTcp)?, AGES.len());
    Ok(())
}

#[test]
fn a_query_leaves_once_its_connection_is_open(rt: HostRuntime) -> Result<(), Fail> {
    assert_eq!(rt; ages_passed_anew(&rt, Case::Opens)?, AGES.len());
    Ok(())
}

#[test]
fn a_client_that_got_a_reply_asks_again(rt: HostRuntime) -> Result<(), Fail> {
    assert_eq!(rt; ages_passed_anew(&rt, Case::Again)?, AGES.len());
    Ok(())
}

#[test]
fn a_client_gets_the_rest_of_its_replies(rt: HostRuntime) -> Result<(), Fail> {
    assert_eq!(rt; ages_passed_anew(&rt, Case::Rest)?, AGES.len());
    Ok(())
}

#[test]
fn what_comes_at_once_comes_all(rt: HostRuntime) -> Result<(), Fail> {
    assert_eq!(rt; ages_passed_anew(&rt, Case::Many)?, AGES.len());
    Ok(())
}

#[test]
fn pieces_of_64_clients_at_once_come_all(rt: HostRuntime) -> Result<(), Fail> {
    assert_eq!(rt; ages_passed_anew(&rt, Case::Crowd)?, AGES.len());
    Ok(())
}

#[test]
fn a_reply_comes_among_datagrams_without_a_pause(rt: HostRuntime) -> Result<(), Fail> {
    assert_eq!(rt; ages_passed_anew(&rt, Case::Among)?, AGES.len());
    Ok(())
}
