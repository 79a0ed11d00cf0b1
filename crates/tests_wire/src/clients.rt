//! Arrivals from clients, and replies to clients, without a sweep: cases of `watched`.

use crate::came::{
    Came, came_next, came_now, client_that_sends, clients_that_came, here, is_sent, make_turns,
    reply_to, settle,
};
use crate::system::{System, expected, send};
use crate::worked::QUESTION;
use mio::net::{TcpStream, UdpSocket};
use network_model::Wire;
use socket_wire::MioWire;
use std::io::Read;
use std::test::Fail;
use std::time::Duration;

/// The octets of a large reply, and of its frame.
const LARGE: usize = 60_000;

const FRAMED: usize = LARGE + 2;

/// The clients sending a piece each before a single turn: as many as a poll's events. Each ends
/// within two turns.
const CROWD: u32 = 64;

const ENDS: u32 = 2 * CROWD;

/// The most turns in which a client takes all waiting replies.
const MANY_TURNS: u32 = 2_000;

pub(crate) fn datagram_comes(
    system: &System<'_>,
    wire: &mut MioWire<'_, System<'_>>,
    port: u16,
) -> Result<bool, Fail> {
    let client = UdpSocket::bind(system.host, here(0))?;
    Ok(is_sent(&client, &QUESTION, port) && came_next(wire) == Came::Datagram(27))
}

pub(crate) fn pieces_come(
    system: &System<'_>,
    wire: &mut MioWire<'_, System<'_>>,
    port: u16,
) -> Result<bool, Fail> {
    let mut client = client_that_sends(system, port, b"\x00\x1b\x12")?;
    let first = came_next(wire);
    settle(wire);
    send(&mut client, &QUESTION[1..])?;
    let second = came_next(wire);
    match first {
        Came::Piece(conn, 3) => Ok(second == Came::Piece(conn, 26)),
        _ => Ok(false),
    }
}

pub(crate) fn question_comes_again(
    system: &System<'_>,
    wire: &mut MioWire<'_, System<'_>>,
    port: u16,
) -> Result<bool, Fail> {
    let mut client = client_that_sends(system, port, b"\x00\x01\x12")?;
    let Came::Piece(conn, 3) = came_next(wire) else {
        return Ok(false);
    };
    let is_replied = wire.put(&reply_to(system.host.alloc(), conn, 12)?).is_ok();
    system.pass(Duration::from_millis(10));
    settle(wire);
    send(&mut client, b"\x00\x01\x34")?;
    Ok(is_replied && came_next(wire) == Came::Piece(conn, 3))
}

/// The number of large replies sent or owed to a new client before too many are left and the client
/// is closed. The client takes none.
fn most_replies(
    system: &System<'_>,
    wire: &mut MioWire<'_, System<'_>>,
    port: u16,
) -> Result<usize, Fail> {
    let _client = client_that_sends(system, port, b"\x00")?;
    let Came::Piece(conn, 1) = came_next(wire) else {
        return Ok(0);
    };
    let reply = reply_to(system.host.alloc(), conn, LARGE)?;
    for count in 0..1_000usize {
        if wire.put(&reply).is_err() {
            return Ok(count);
        }
    }
    Ok(0)
}

/// Whether the client gets this number of octets.
fn gets(
    wire: &mut MioWire<'_, System<'_>>,
    client: &mut TcpStream,
    room: &mut [u8],
    count: usize,
) -> bool {
    let mut left = count;
    for _ in 0..MANY_TURNS {
        left = left.saturating_sub(client.read(room).unwrap_or(0));
        if left == 0 {
            return true;
        }
        let _came = came_now(wire);
    }
    false
}

/// Puts eight replies fewer than the most for a client, some nine of 17: the system takes more or
/// fewer at another time.
pub(crate) fn rest_comes(
    system: &System<'_>,
    wire: &mut MioWire<'_, System<'_>>,
    port: u16,
) -> Result<bool, Fail> {
    let count = most_replies(system, wire, port)?.saturating_sub(8);
    let mut room = Vec::from_elem(system.host.alloc(), 0u8, LARGE)?;
    let mut client = client_that_sends(system, port, b"\x00")?;
    let Came::Piece(conn, 1) = came_next(wire) else {
        return Ok(false);
    };
    let reply = reply_to(system.host.alloc(), conn, LARGE)?;
    for _ in 0..count {
        expected(wire.put(&reply).is_ok(), "a reply that was refused")?;
    }
    settle(wire);
    Ok(count > 0 && gets(wire, &mut client, &mut room, count.saturating_mul(FRAMED)))
}

/// Whether the next `count` arrivals are clients'.
fn clients_come(wire: &mut MioWire<'_, System<'_>>, count: u32) -> bool {
    for _ in 0..count {
        if !matches!(came_next(wire), Came::Datagram(27) | Came::Piece(_, 1)) {
            return false;
        }
    }
    true
}

pub(crate) fn many_come(
    system: &System<'_>,
    wire: &mut MioWire<'_, System<'_>>,
    port: u16,
) -> Result<bool, Fail> {
    let by_udp = UdpSocket::bind(system.host, here(0))?;
    let is_sent = is_sent(&by_udp, &QUESTION, port);
    let _first = client_that_sends(system, port, b"\x00")?;
    let _second = client_that_sends(system, port, b"\x00")?;
    let _third = client_that_sends(system, port, b"\x00")?;
    Ok(is_sent && clients_come(wire, 4))
}

/// Afterwards takes the turns in which these clients end.
pub(crate) fn crowd_comes(
    system: &System<'_>,
    wire: &mut MioWire<'_, System<'_>>,
    port: u16,
) -> Result<bool, Fail> {
    let mut clients = clients_that_came(system, wire, port, b"\x00", CROWD)?;
    for client in &mut clients {
        send(client, b"\x1b")?;
    }
    let have_come = clients_come(wire, CROWD);
    drop(clients);
    make_turns(wire, ENDS);
    Ok(have_come)
}
