//! The sockets of asks.

ghost use Rattle.std.specs.Prelude.{◌≡◌, [], is_ok, length, nat_lt};
ghost use Rattle.std.specs.BTreeMap.{is_at};
ghost use Rattle.std.specs.Map.{lookup};
ghost use Rattle.std.specs.Option.{option_copied};
ghost use Rattle.std.specs.Ordering.{nat_cmp};
ghost use Rattle.stream_connections.specs.Listed.{first_number};
ghost use Rattle.socket_wire.specs.Asks.{OpensAsk, SentBy, without_ask};

use crate::address::ends_of;
use crate::answers::{kept_if, sent};
use ready_sockets::{Origin, Readiness};
use std::alloc::Allocator;
use std::collections::BTreeMap;
use std::io;
use std::marker::Model;
use std::net::Net;
use stream_connections::Dropped;
use suffix_routes::Peer;
use system_calls::{Calls, DatagramSocket};

/// The open sockets of asks, by their ports. A socket that leaves the list is dropped.
#[derive(Drop)]
pub(crate) struct Asks<A: Allocator> {
    listed: BTreeMap<u16, DatagramSocket, A>,
    gone: Dropped<DatagramSocket>,
}

impl<A: Allocator> Model for Asks<A> {
    ghost use Rattle.socket_wire.specs.Asks.{SeenAsks};

    ghost Value = { SeenAsks };

    ghost view = { λ a. record { listed = a.listed.entries; gone = a.gone } };
}

impl<A: Allocator + Copy> Asks<A> {
    /// Starts with no socket.
    pub fn new(alloc: A) -> Asks<A>
        ensures { result ≡ record { listed = []; gone = [] } }
    {
        Asks {
            listed: BTreeMap::new(alloc),
            gone: Dropped::new(),
        }
    }

    /// Lists the socket of an ask in place of the one listed at its port, by its answer to the sent
    /// query: a socket that refused is not listed. `Err` if the socket refused, or memory ran out.
    pub fn list(
        &mut self,
        port: u16,
        socket: DatagramSocket,
        answer: io::Result<usize>,
    ) -> io::Result<()>
        ensures { SentBy answer port socket (is_ok result) self.old self.new }
    {
        sent(answer)?;
        if let Some(replaced) = self.listed.insert(port, socket)? {
            self.gone.take(replaced);
        }
        Ok(())
    }

    /// Drops the socket at this port, if any.
    pub fn end(&mut self, port: u16)
        ensures { self.new ≡ without_ask port self.old }
    {
        if let Some(ended) = self.listed.remove(&port) {
            self.gone.take(ended);
        }
    }

    /// Returns the socket at this port.
    pub fn at(&self, port: u16) -> Option<&DatagramSocket>
        ensures { option_copied result ≡ lookup (is_at (nat_cmp port)) self.now.listed }
    {
        self.listed.get(&port)
    }

    /// Returns the first port from this one on at which a socket is open.
    pub fn from(&self, port: u16) -> Option<u16>
        ensures { result ≡ first_number port self.now.listed }
    {
        let (port, _) = self.listed.range(port..).next()?;
        Some(*port)
    }

    /// Whether a socket is open.
    pub fn has_any(&self) -> bool
        ensures { result ≡ nat_lt 0 (length self.now.listed) }
    {
        !self.listed.is_empty()
    }
}

/// Binds a socket at this port and connects it to the server, so that no stranger's datagram
/// arrives and a closed port is reported. `Err` if the system refuses.
pub(crate) fn ask_socket<R: Net, A: Allocator + Copy>(
    calls: &mut Calls,
    rt: &R,
    readiness: &Readiness<A>,
    port: u16,
    server: Peer,
) -> io::Result<DatagramSocket>
    ensures { OpensAsk port server result calls.old calls.new }
{
    let ends = ends_of(port, server);
    let socket = calls.bind(rt, ends.own)?;
    let connected = calls.connect(&socket, ends.server);
    let mut socket = kept_if(socket, connected)?;
    let watched = readiness.watch_datagrams(calls, &mut socket, Origin::Ask(port));
    kept_if(socket, watched)
}
