//! The actions of a wire.

ghost use Rattle.std.specs.Prelude.{◌≡◌, is_ok};
ghost use Rattle.socket_wire.specs.Asks.{OpensAsk, SendsQuery};
ghost use Rattle.socket_wire.specs.Putting.{AnswersOn, AsksFrom, BeginsOn, BeginsWithRoom};
ghost use Rattle.socket_wire.specs.Putting.{OpensWithRoom, PutsAction, PutsQuery, SendsReply};
ghost use Rattle.socket_wire.specs.Putting.{with_spent};

use super::Sockets;
use crate::address::address_of;
use crate::answers::{kept_if, sent};
use crate::asks::ask_socket;
use ready_sockets::Origin;
use std::alloc::Allocator;
use std::io;
use std::io::ErrorKind;
use std::net::Net;
use step_values::{Action, Client};
use stream_connections::{ServerStream, unsent_query};
use suffix_routes::Peer;
use system_calls::DatagramSocket;

impl<R: Net, A: Allocator + Copy> Sockets<'_, R, A> {
    /// Does an action. `Err` if the system refuses, or memory ran out. An ask spends the random
    /// words of its identifier and port, whatever its result.
    pub fn put(&mut self, action: &Action<A>, now: u64) -> io::Result<()>
        ensures { PutsAction action.now now (is_ok result) (with_spent action.now self.old)
            self.new }
    {
        match action {
            Action::AskUdp { .. } | Action::AskTcp { .. } => self.words.spend(),
            Action::CloseUdp { .. } | Action::CloseTcp { .. } | Action::Reply { .. } => {}
        }
        self.act(action, now)
    }

    /// Does an action, the words aside.
    fn act(&mut self, action: &Action<A>, now: u64) -> io::Result<()>
        ensures { PutsAction action.now now (is_ok result) self.old self.new }
    {
        match action {
            Action::AskUdp {
                port,
                server,
                bytes,
            } => self.ask_udp(*port, *server, bytes.as_slice(), now),
            Action::AskTcp {
                conn,
                server,
                bytes,
            } => self.ask_tcp(*conn, *server, bytes.as_slice(), now),
            Action::CloseUdp { port } => {
                self.asks.end(*port);
                Ok(())
            }
            Action::CloseTcp { conn } => {
                self.connections.close_server(*conn);
                Ok(())
            }
            Action::Reply { client, bytes, .. } => match client {
                Client::Udp(peer) => self.send_reply(*peer, bytes.as_slice()),
                Client::Tcp(conn) => self.reply(*conn, bytes.as_slice(), now),
            },
        }
    }

    /// Sends a reply by UDP. `Err` if the system refuses.
    fn send_reply(&mut self, to: Peer, reply: &[u8]) -> io::Result<()>
        ensures { SendsReply to reply.now (is_ok result) self.old self.new }
    {
        sent(self.calls.send_to(&self.datagrams, reply, address_of(to)))
    }

    /// Sends a query from this port.
    fn ask_udp(&mut self, port: u16, server: Peer, query: &[u8], now: u64) -> io::Result<()>
        ensures { AsksFrom port server query.now now (is_ok result) self.old self.new }
    {
        let opened = self.open_with_room(port, server, now);
        self.send_query(opened, port, query)
    }

    /// Opens the socket of an ask. If no descriptor is left, the oldest connection of a client that
    /// has waited for nothing for a while is closed.
    fn open_with_room(&mut self, port: u16, server: Peer, now: u64) -> io::Result<DatagramSocket>
        ensures { OpensWithRoom port server now result self.old self.new }
    {
        let opened = self.open(port, server);
        if self.frees_for(&opened, now) {
            return self.open(port, server);
        }
        opened
    }

    /// Opens the socket of an ask. `Err` if the system refuses.
    fn open(&mut self, port: u16, server: Peer) -> io::Result<DatagramSocket>
        ensures opens { OpensAsk port server result self.old.calls self.new.calls }
        ensures rest { self.new ≡ record self.old { calls = self.new.calls } }
    {
        ask_socket(&mut self.calls, self.rt, &self.readiness, port, server)
    }

    /// Sends a query with the socket that was opened for it, and lists the socket.
    fn send_query(
        &mut self,
        opened: io::Result<DatagramSocket>,
        port: u16,
        query: &[u8],
    ) -> io::Result<()>
        ensures sends { SendsQuery opened port query.now (is_ok result)
            self.old.calls self.new.calls self.old.asks self.new.asks }
        ensures rest { self.new ≡ record self.old { asks = self.new.asks; calls = self.new.calls } }
    {
        let socket = opened?;
        let answer = self.calls.send(&socket, query);
        self.asks.list(port, socket, answer)
    }

    /// Begins a connection, and sends a query as soon as it is open.
    fn ask_tcp(&mut self, conn: u64, server: Peer, query: &[u8], now: u64) -> io::Result<()>
        ensures { PutsQuery conn server query.now now (is_ok result) self.old self.new }
    {
        self.connections.keep_room()?;
        let stream = self.begin_with_room(conn, server, query, now)?;
        self.connections.list_server(conn, stream)?;
        self.readiness.add(Origin::Server(conn));
        Ok(())
    }

    /// Begins a connection with a query. If no descriptor is left, the oldest connection of a
    /// client that has waited for nothing for a while is closed.
    fn begin_with_room(
        &mut self,
        conn: u64,
        server: Peer,
        query: &[u8],
        now: u64,
    ) -> io::Result<ServerStream<A>>
        ensures begins { BeginsWithRoom conn server query.now now result self.old self.new }
        ensures has { self.new.connections.has_room ≡ self.old.connections.has_room }
    {
        let begun = self.begin(conn, server, query);
        if self.frees_for(&begun, now) {
            return self.begin(conn, server, query);
        }
        begun
    }

    /// Begins to connect, with the query after its length. `Err` if the system refuses, or memory
    /// ran out.
    fn begin(&mut self, conn: u64, server: Peer, query: &[u8]) -> io::Result<ServerStream<A>>
        ensures begins { BeginsOn conn server query.now result self.old.calls self.new.calls }
        ensures rest { self.new ≡ record self.old { calls = self.new.calls } }
    {
        let unsent = unsent_query(self.alloc, query)?;
        let mut stream = self.calls.begin(self.rt, address_of(server))?;
        let origin = Origin::Server(conn);
        let watched = self
            .readiness
            .watch_stream(&mut self.calls, &mut stream, origin);
        Ok(ServerStream::new(kept_if(stream, watched)?, server, unsent))
    }

    /// Replies on a client's connection. `Err` if the reply is lost. A connection that is over is
    /// closed.
    fn reply(&mut self, conn: u64, reply: &[u8], now: u64) -> io::Result<()>
        ensures answers { AnswersOn conn reply.now now (is_ok result) self.old.calls self.new.calls
            self.old.connections self.new.connections }
        ensures rest { self.new ≡ record self.old {
          connections = self.new.connections;
          calls = self.new.calls;
        } }
    {
        match self
            .connections
            .reply(&mut self.calls, self.alloc, conn, reply, now)
        {
            None => Err(io::Error::from(ErrorKind::NotConnected)),
            Some(Ok(true)) => Ok(()),
            Some(Ok(false)) => {
                self.connections.close_client(conn);
                Ok(())
            }
            Some(Err(lost)) => {
                if lost.is_over() {
                    self.connections.close_client(conn);
                }
                Err(io::Error::from(lost))
            }
        }
    }
}
