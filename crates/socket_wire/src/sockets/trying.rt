//! Sockets that are tried in turn, whatever the events reported.

ghost use Rattle.socket_wire.specs.Trying.{BeginsSweep, TriesAsk, TriesClient, TriesOthers};
ghost use Rattle.socket_wire.specs.Trying.{TriesServer, TriesUpTo};

use super::Sockets;
use ready_sockets::Origin;
use std::alloc::Allocator;
use std::net::Net;

/// The most sockets of each kind that are tried in a sweep.
const AT_ONCE: u8 = 20;

/// The listener for connections is tried once in this number of sweeps. The system makes a socket
/// before it looks for a client, which takes as long as the rest of a sweep.
const SWEEPS: u8 = 8;

impl<R: Net, A: Allocator + Copy> Sockets<'_, R, A> {
    /// Has the socket for datagrams, the listener in every eighth sweep, and some of the other
    /// sockets tried in turn, whatever the events reported.
    pub(super) fn try_others(&mut self)
        ensures { TriesOthers self.old self.new }
    {
        self.begin_sweep();
        self.try_clients();
        self.try_asks();
        self.try_servers();
    }

    /// Has the socket for datagrams tried, and the listener in every eighth sweep.
    fn begin_sweep(&mut self)
        ensures { BeginsSweep self.old self.new }
    {
        self.readiness.add(Origin::Datagrams);
        self.sweeps = self.sweeps.wrapping_add(1);
        if self.sweeps % SWEEPS == 0 {
            self.readiness.add(Origin::Connections);
        }
    }

    /// Has the next clients tried, up to the last one.
    fn try_clients(&mut self)
        ensures { TriesUpTo TriesClient 20 self.old self.new }
    {
        for _tried in 0..AT_ONCE {
            if !self.try_client() {
                return;
            }
        }
    }

    /// Has the sockets of the next asks tried, up to the last one.
    fn try_asks(&mut self)
        ensures { TriesUpTo TriesAsk 20 self.old self.new }
    {
        for _tried in 0..AT_ONCE {
            if !self.try_ask() {
                return;
            }
        }
    }

    /// Has the connections of the next asks tried, up to the last one.
    fn try_servers(&mut self)
        ensures { TriesUpTo TriesServer 20 self.old self.new }
    {
        for _tried in 0..AT_ONCE {
            if !self.try_server() {
                return;
            }
        }
    }

    /// Has the next client tried. False after the last one.
    fn try_client(&mut self) -> bool
        ensures { TriesClient result self.old self.new }
    {
        match self.connections.client_from(self.next_client) {
            Some(conn) => {
                self.next_client = conn.wrapping_add(1);
                self.readiness.add(Origin::Client(conn));
                true
            }
            None => {
                self.next_client = 0;
                false
            }
        }
    }

    /// Has the socket of the next ask tried. False after the last one.
    fn try_ask(&mut self) -> bool
        ensures { TriesAsk result self.old self.new }
    {
        match self.asks.from(self.next_ask) {
            Some(port) => {
                self.next_ask = port.wrapping_add(1);
                self.readiness.add(Origin::Ask(port));
                true
            }
            None => {
                self.next_ask = 0;
                false
            }
        }
    }

    /// Has the connection of the next ask tried. False after the last one.
    fn try_server(&mut self) -> bool
        ensures { TriesServer result self.old self.new }
    {
        match self.connections.server_from(self.next_server) {
            Some(conn) => {
                self.next_server = conn.wrapping_add(1);
                self.readiness.add(Origin::Server(conn));
                true
            }
            None => {
                self.next_server = 0;
                false
            }
        }
    }
}
