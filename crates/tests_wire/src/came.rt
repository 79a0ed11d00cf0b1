//! The arrivals over a wire, in plain values, and their senders.

use crate::system::{System, TURNS, address, expected, send};
use mio::net::{TcpStream, UdpSocket};
use network_model::{Arrival, Wire};
use plain_values::PlainList;
use socket_wire::MioWire;
use std::alloc::Global;
use std::net::{Ipv4Addr, SocketAddr};
use std::test::Fail;
use step_values::{Action, Client, Path, Why};

/// The number of turns after which no socket is noted as ready.
const SETTLED: u32 = 4;

/// An arrival, in plain values.
#[derive(Clone, Copy, PartialEq, Eq, Debug)]
pub(crate) enum Came {
    /// Nothing, or a client's end.
    Nothing,
    /// A client's datagram: the number of octets.
    Datagram(usize),
    /// A piece of the numbered client's stream: the number of octets.
    Piece(u64, usize),
    /// A datagram at a query's port: the number of octets.
    Reply(u16, usize),
    /// A piece of a server's stream on this connection: the number of octets.
    Stream(u64, usize),
    /// A path's end.
    Gone(Path),
    /// The wire refused.
    Refused,
}

fn came_in(arrival: &Arrival) -> Came {
    match arrival {
        Arrival::Nothing | Arrival::ClientClosed { .. } => Came::Nothing,
        Arrival::ClientDatagram { bytes, .. } => Came::Datagram(bytes.as_slice().len()),
        Arrival::ClientStream { conn, bytes } => Came::Piece(*conn, bytes.as_slice().len()),
        Arrival::ServerDatagram { port, bytes, .. } => Came::Reply(*port, bytes.as_slice().len()),
        Arrival::ServerStream { conn, bytes, .. } => Came::Stream(*conn, bytes.as_slice().len()),
        Arrival::PathGone { path } => Came::Gone(*path),
    }
}

/// A turn's arrival.
pub(crate) fn came_now(wire: &mut MioWire<'_, System<'_>>) -> Came {
    let came = match wire.arrival() {
        Ok(arrival) => came_in(&arrival),
        Err(_) => Came::Refused,
    };
    let _moment = wire.moment();
    came
}

/// The next arrival; `Nothing` if nothing arrives in many turns.
pub(crate) fn came_next(wire: &mut MioWire<'_, System<'_>>) -> Came {
    for _ in 0..TURNS {
        let came = came_now(wire);
        if came != Came::Nothing {
            return came;
        }
    }
    Came::Nothing
}

/// Takes `count` turns with any arrivals.
pub(crate) fn make_turns(wire: &mut MioWire<'_, System<'_>>, count: u32) {
    for _ in 0..count {
        let _came = came_now(wire);
    }
}

/// Takes turns until nothing is noted as ready.
pub(crate) fn settle(wire: &mut MioWire<'_, System<'_>>) {
    make_turns(wire, SETTLED);
}

/// This port on this machine.
pub(crate) fn here(port: u16) -> SocketAddr {
    address(Ipv4Addr::LOCALHOST, port)
}

/// A new client at this port, after sending these octets.
pub(crate) fn client_that_sends(
    system: &System<'_>,
    port: u16,
    octets: &[u8],
) -> Result<TcpStream, Fail> {
    let mut client = TcpStream::connect(system.host, here(port))?;
    send(&mut client, octets)?;
    Ok(client)
}

/// `count` new clients at this port, after the arrival of each client's octets.
pub(crate) fn clients_that_came(
    system: &System<'_>,
    wire: &mut MioWire<'_, System<'_>>,
    port: u16,
    octets: &[u8],
    count: u32,
) -> Result<Vec<TcpStream>, Fail> {
    let mut clients = Vec::new(system.host.alloc());
    for _ in 0..count {
        clients.push(client_that_sends(system, port, octets)?)?;
        let has_come = match came_next(wire) {
            Came::Piece(_, piece) => piece == octets.len(),
            _ => false,
        };
        expected(has_come, "no client came")?;
    }
    settle(wire);
    Ok(clients)
}

/// A reply of `count` octets to the numbered client.
pub(crate) fn reply_to(alloc: Global, conn: u64, count: usize) -> Result<Action, Fail> {
    Ok(Action::Reply {
        client: Client::Tcp(conn),
        bytes: PlainList::from_vec(Vec::from_elem(alloc, 0u8, count)?),
        why: Why::Answered,
    })
}

/// Whether all these octets are sent to the port.
pub(crate) fn is_sent(socket: &UdpSocket, octets: &[u8], port: u16) -> bool {
    socket.send_to(octets, here(port)).ok() == Some(octets.len())
}
