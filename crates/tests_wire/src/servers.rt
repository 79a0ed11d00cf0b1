//! Arrivals from servers, and queries to servers, without a sweep: cases of `watched`.

use crate::came::{Came, came_next, came_now, here, is_sent, make_turns, settle};
use crate::system::{System, TURNS, expected, local};
use crate::worked::{QUERY, QUESTION, REPLY};
use mio::net::{TcpListener, TcpStream, UdpSocket};
use network_model::Wire;
use plain_values::PlainList;
use socket_wire::MioWire;
use std::alloc::Global;
use std::io::{Read, Write};
use std::net::{Net, SocketAddr};
use std::test::Fail;
use step_values::Action;

/// Numbers of connections: the first, two past 16 and 32 bits, and the last with a token of its
/// own.
const CONNECTIONS: [u64; 4] = [0, 65_536, 1 << 40, (1 << 61) - 1];

/// The connections that the system opens before the server accepts any: 128 and one more. A further
/// connection opens once there is room, at the system's next try, a second later.
const UNACCEPTED: u32 = 129;

/// The datagrams arriving without a pause, and the arrivals within which the reply comes.
const WITHOUT_PAUSE: u32 = 100;

const SOON: u32 = 10;

/// A query by UDP to the server, from the port after the server's.
fn query_by_udp(alloc: Global, server: u16) -> Result<Action, Fail> {
    Ok(Action::AskUdp {
        port: server.saturating_add(1),
        server: local(server),
        bytes: PlainList::copied(alloc, &QUERY)?,
    })
}

/// Puts a query. Returns the sender's address once the server has the query.
fn asked_by_udp(
    system: &System<'_>,
    wire: &mut MioWire<'_, System<'_>>,
    server: &UdpSocket,
    port: u16,
) -> Result<SocketAddr, Fail> {
    let query = query_by_udp(system.host.alloc(), port)?;
    expected(wire.put(&query).is_ok(), "a query that was not sent")?;
    settle(wire);
    let mut room = [0u8; 64];
    let (count, from) = server.recv_from(&mut room)?;
    expected(room[..count] == QUERY[..], "another query")?;
    Ok(from)
}

pub(crate) fn reply_comes_by_udp(
    system: &System<'_>,
    wire: &mut MioWire<'_, System<'_>>,
    port: u16,
) -> Result<bool, Fail> {
    let server = UdpSocket::bind(system.host, here(port))?;
    let from = asked_by_udp(system, wire, &server, port)?;
    server.send_to(REPLY, from)?;
    let own = port.saturating_add(1);
    let came = came_next(wire);
    let is_closed = wire.put(&Action::CloseUdp { port: own }).is_ok();
    Ok(came == Came::Reply(own, 43) && is_closed)
}

/// A query over TCP to the server at this port, on the numbered connection.
fn query_over_tcp(alloc: Global, conn: u64, server: u16) -> Result<Action, Fail> {
    Ok(Action::AskTcp {
        conn,
        server: local(server),
        bytes: PlainList::copied(alloc, &QUERY)?,
    })
}

/// Whether the framed query is there. Sends the reply.
fn is_replied(stream: &mut TcpStream) -> Result<bool, Fail> {
    let mut room = [0u8; 64];
    let count = stream.read(&mut room)?;
    let is_query = count == 29 && room[..2] == [0, 27] && room[2..29] == QUERY[..];
    Ok(is_query && stream.write(&[0, 43])? == 2 && stream.write(REPLY)? == 43)
}

/// Whether the reply to a query comes on the numbered connection.
fn reply_comes_on(
    system: &System<'_>,
    wire: &mut MioWire<'_, System<'_>>,
    conn: u64,
    port: u16,
) -> Result<bool, Fail> {
    let listener = TcpListener::bind(system.host, here(port))?;
    let query = query_over_tcp(system.host.alloc(), conn, port)?;
    expected(wire.put(&query).is_ok(), "a query that was not sent")?;
    settle(wire);
    let (mut stream, _) = listener.accept()?;
    expected(is_replied(&mut stream)?, "another query")?;
    let came = came_next(wire);
    let is_closed = wire.put(&Action::CloseTcp { conn }).is_ok();
    match came {
        Came::Stream(number, _) => Ok(number == conn && is_closed),
        _ => Ok(false),
    }
}

pub(crate) fn replies_come_over_tcp(
    system: &System<'_>,
    wire: &mut MioWire<'_, System<'_>>,
    port: u16,
) -> Result<bool, Fail> {
    for conn in &CONNECTIONS {
        if !reply_comes_on(system, wire, *conn, port)? {
            return Ok(false);
        }
    }
    Ok(true)
}

/// The next connection accepted by the server.
fn accepted_next(wire: &mut MioWire<'_, System<'_>>, listener: &TcpListener) -> Option<TcpStream> {
    for _ in 0..TURNS {
        let _came = came_now(wire);
        if let Ok((stream, _)) = listener.accept() {
            return Some(stream);
        }
    }
    None
}

/// Whether the framed query comes over this connection.
fn gets_query(wire: &mut MioWire<'_, System<'_>>, stream: &mut TcpStream) -> bool {
    let mut room = [0u8; 64];
    for _ in 0..TURNS {
        if stream.read(&mut room).ok() == Some(29) {
            return true;
        }
        let _came = came_now(wire);
    }
    false
}

pub(crate) fn query_comes_later(
    system: &System<'_>,
    wire: &mut MioWire<'_, System<'_>>,
    port: u16,
) -> Result<bool, Fail> {
    let listener = system.host.bind(here(port))?;
    listener.set_nonblocking(true)?;
    let listener = TcpListener::from_std(listener);
    let mut others = Vec::new(system.host.alloc());
    for _ in 0..UNACCEPTED {
        others.push(TcpStream::connect(system.host, here(port))?)?;
    }
    let query = query_over_tcp(system.host.alloc(), 0, port)?;
    expected(wire.put(&query).is_ok(), "a query that was not sent")?;
    settle(wire);
    for _ in 0..UNACCEPTED {
        let _other = listener.accept()?;
    }
    let has_come = match accepted_next(wire, &listener) {
        Some(mut stream) => gets_query(wire, &mut stream),
        None => false,
    };
    let is_closed = wire.put(&Action::CloseTcp { conn: 0 }).is_ok();
    Ok(has_come && is_closed)
}

/// Whether this is among the next ten arrivals.
fn comes_soon(wire: &mut MioWire<'_, System<'_>>, wanted: Came) -> bool {
    for _ in 0..SOON {
        if came_next(wire) == wanted {
            return true;
        }
    }
    false
}

pub(crate) fn reply_comes_among_datagrams(
    system: &System<'_>,
    wire: &mut MioWire<'_, System<'_>>,
    port: u16,
) -> Result<bool, Fail> {
    let (server, own) = (port.saturating_add(1), port.saturating_add(2));
    let client = UdpSocket::bind(system.host, here(0))?;
    let socket = UdpSocket::bind(system.host, here(server))?;
    let from = asked_by_udp(system, wire, &socket, server)?;
    for _ in 0..WITHOUT_PAUSE {
        expected(
            is_sent(&client, &QUESTION, port),
            "a datagram that was not sent",
        )?;
    }
    let first = came_next(wire);
    socket.send_to(REPLY, from)?;
    let is_soon = comes_soon(wire, Came::Reply(own, 43));
    let is_closed = wire.put(&Action::CloseUdp { port: own }).is_ok();
    make_turns(wire, WITHOUT_PAUSE);
    Ok(first == Came::Datagram(27) && is_soon && is_closed)
}
