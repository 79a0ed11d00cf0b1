//! The open connections, and the ends still to be reported.

ghost use Rattle.std.specs.Prelude.{◌≡◌, ◌<◌, length, drop, slice_get, nat_lt};
ghost use Rattle.std.specs.Prelude.{true, is_some, IsTrue, OnOk, OnErr};
ghost use Rattle.std.specs.Ordering.{nat_cmp};
ghost use Rattle.std.specs.Map.{lookup};
ghost use Rattle.std.specs.BTreeMap.{is_at};
ghost use Rattle.stream_connections.specs.Dropped.{with_dropped};
ghost use Rattle.stream_connections.specs.Listed.{Admits, RepliesOn, ServesOn, first_idle, first_number, first_resting};
ghost use Rattle.stream_connections.specs.Listed.{is_late_on};
ghost use Rattle.stream_connections.specs.Open.{AreNone, MakesPlace, ServesServer};
ghost use Rattle.stream_connections.specs.Open.{with_server, without_client, without_first, without_server};

use crate::answers::Heard;
use crate::client_stream::ClientStream;
use crate::clients::Clients;
use crate::dropped::Dropped;
use crate::lost::Lost;
use crate::servers::ServerStream;
use std::alloc::{AllocError, Allocator, Global};
use std::collections::{BTreeMap, VecDeque};
use std::marker::Model;
use suffix_routes::Peer;
use system_calls::{Calls, Stream};

/// The server on a connection, and what its stream gave.
#[derive(Drop)]
pub struct ServerHeard {
    pub server: Peer,
    pub heard: Heard,
}

/// A connection closed by the wire.
#[derive(Clone, Copy, Drop)]
pub enum Closed {
    /// The connection of a client with this number.
    Client(u64),
    /// The connection of an ask with this number.
    Server(u64),
}

/// The open connections of clients and of asks, by their numbers, and the closed connections whose
/// ends are still to be reported. There is always room to report the end of each. A moment is in
/// ms, by one clock for all calls; the oldest of several clients has the least number.
#[derive(Drop)]
pub struct Connections<A: Allocator = Global> {
    clients: Clients<A>,
    servers: BTreeMap<u64, ServerStream<A>, A>,
    ends: VecDeque<Closed, A>,
    gone_clients: Dropped<ClientStream<A>>,
    gone_servers: Dropped<ServerStream<A>>,
}

impl<A: Allocator> Model for Connections<A> {
    ghost use Rattle.std.specs.VecDeque.{deque_len, deque_capacity};
    ghost use Rattle.stream_connections.specs.Open.{AllEndsFit, Connections, has_room};

    ghost Value = { Connections A };

    ghost view = { λ c. record {
      clients = c.clients;
      servers = c.servers.entries;
      closed = c.ends.items;
      has_room = has_room c.clients c.servers.entries (deque_len c.ends) (deque_capacity c.ends);
      gone_clients = c.gone_clients;
      gone_servers = c.gone_servers;
    } };

    ghost invariant = { λ c. AllEndsFit c.clients c.servers.entries (deque_len c.ends) (deque_capacity c.ends) };
}

impl<A: Allocator + Copy> Connections<A> {
    /// Starts with no connection.
    pub fn new(alloc: A) -> Connections<A>
        ensures { AreNone result }
    {
        Connections {
            clients: Clients::new(alloc),
            servers: BTreeMap::new(alloc),
            ends: VecDeque::new(alloc),
            gone_clients: Dropped::new(),
            gone_servers: Dropped::new(),
        }
    }

    /// Takes out the next end to report.
    pub fn next_end(&mut self) -> Option<Closed>
        ensures first { result ≡ slice_get self.old.closed 0 }
        ensures rest { self.new ≡ record self.old { closed = drop 1 self.old.closed; has_room = self.new.has_room } }
    {
        self.ends.pop_front()
    }

    /// Makes room to report the end of each open connection, and of one more.
    pub fn keep_room(&mut self) -> Result<(), AllocError>
        ensures ok { OnOk result (self.new.has_room ≡ true) }
        ensures rest { self.new ≡ record self.old { has_room = self.new.has_room } }
    {
        let open = self.clients.len().saturating_add(self.servers.len());
        self.ends.reserve(open.saturating_add(1))
    }

    /// Closes a client's connection if open; its end will be reported.
    pub fn close_client(&mut self, conn: u64)
        ensures { self.new ≡ without_client conn self.old }
    {
        if let Some(client) = self.clients.take_out(conn) {
            self.gone_clients.take(client);
            self.ends.push_back_reserved(Closed::Client(conn));
        }
    }

    /// Closes a connection to a server if open; its end will be reported.
    pub fn close_server(&mut self, conn: u64)
        ensures { self.new ≡ without_server conn self.old }
    {
        if let Some(server) = self.servers.remove(&conn) {
            self.gone_servers.take(server);
            self.ends.push_back_reserved(Closed::Server(conn));
        }
    }

    /// Closes the oldest client's connection that has waited for nothing for a second; false if
    /// there is none.
    pub fn close_resting(&mut self, now: u64) -> bool
        ensures closed { self.new ≡ without_first (first_resting now self.old.clients) self.old }
        ensures found { result ≡ is_some (first_resting now self.old.clients) }
    {
        match self.clients.oldest_resting(now) {
            Some(conn) => {
                self.close_client(conn);
                true
            }
            None => false,
        }
    }

    /// Makes a place for one client more: of 1,024, the oldest that waits for nothing is closed.
    /// False if all of them wait: nothing has changed.
    pub fn make_place(&mut self) -> bool
        ensures place { IsTrue result → length self.new.clients < 1024 }
        ensures made { MakesPlace result self.old self.new }
    {
        !self.clients.is_full() || self.close_oldest()
    }

    /// Lists a client's connection under its number, in place of the one listed there before.
    pub fn admit(&mut self, alloc: A, conn: u64, stream: Stream, now: u64) -> Result<(), AllocError>
        requires place { length self.old.clients < 1024 }
        requires room { self.old.has_room ≡ true }
        ensures ok { OnOk result (Admits conn stream now self.old.clients self.new.clients) }
        ensures gone { OnOk result (self.new.gone_clients
            ≡ with_dropped (lookup (is_at (nat_cmp conn)) self.old.clients) self.old.gone_clients) }
        ensures err { OnErr result (self.new ≡ self.old) }
        ensures rest { self.new ≡ record self.old {
          clients = self.new.clients;
          has_room = self.new.has_room;
          gone_clients = self.new.gone_clients;
        } }
    {
        if let Some(replaced) = self.clients.admit(alloc, conn, stream, now)? {
            self.gone_clients.take(replaced);
        }
        Ok(())
    }

    /// Lists a connection to a server under its number, in place of the one listed there before.
    pub fn list_server(&mut self, conn: u64, stream: ServerStream<A>) -> Result<(), AllocError>
        requires { self.old.has_room ≡ true }
        ensures ok { OnOk result (self.new
            ≡ record (with_server conn stream self.old) { has_room = self.new.has_room }) }
        ensures err { OnErr result (self.new ≡ self.old) }
    {
        if let Some(replaced) = self.servers.insert(conn, stream)? {
            self.gone_servers.take(replaced);
        }
        Ok(())
    }

    /// Sends the octets left for the client with this number, and reads a piece of its stream into
    /// the buffer; `None` if not open.
    pub fn serve_client(
        &mut self,
        calls: &mut Calls,
        conn: u64,
        buffer: &mut [u8],
        now: u64,
    ) -> Option<Heard>
        ensures serves { ServesOn conn result now buffer.new calls.old calls.new
            self.old.clients self.new.clients }
        ensures rest { self.new ≡ record self.old { clients = self.new.clients } }
    {
        self.clients.serve(calls, conn, buffer, now)
    }

    /// Sends the octets left for the server on the connection with this number, and reads a piece
    /// of its stream into the buffer; `None` if not open.
    pub fn serve_server(
        &mut self,
        calls: &mut Calls,
        conn: u64,
        buffer: &mut [u8],
    ) -> Option<ServerHeard>
        ensures serves { ServesServer conn result buffer.new calls.old calls.new
            self.old.servers self.new.servers }
        ensures rest { self.new ≡ record self.old { servers = self.new.servers } }
    {
        let stream = self.servers.get_mut(&conn)?;
        let server = stream.server;
        let heard = stream.serve(calls, buffer);
        Some(ServerHeard { server, heard })
    }

    /// Replies to the client with this number, after the octets left for the client. Returns
    /// whether the connection goes on; `None` if not open. At most 1 MiB is left for a client.
    pub fn reply(
        &mut self,
        calls: &mut Calls,
        alloc: A,
        conn: u64,
        reply: &[u8],
        now: u64,
    ) -> Option<Result<bool, Lost>>
        ensures replies { RepliesOn conn reply.now now result calls.old calls.new
            self.old.clients self.new.clients }
        ensures rest { self.new ≡ record self.old { clients = self.new.clients } }
    {
        self.clients.reply(calls, alloc, conn, reply, now)
    }

    /// Returns the first client from this number on.
    pub fn client_from(&self, conn: u64) -> Option<u64>
        ensures { result ≡ first_number conn self.now.clients }
    {
        self.clients.from(conn)
    }

    /// Whether the client with this number has been silent for too long: for 10 s, and with a reply
    /// due for `deadline` ms more (RFC 7766 6.2.3). Call `serve_client` before: messages sent in
    /// time may not be read yet. False if not open.
    pub fn is_late(&self, conn: u64, now: u64, deadline: u64) -> bool
        ensures { result ≡ is_late_on conn now deadline self.now.clients }
    {
        self.clients.is_late(conn, now, deadline)
    }

    /// Returns the first connection to a server from this number on.
    pub fn server_from(&self, conn: u64) -> Option<u64>
        ensures { result ≡ first_number conn self.now.servers }
    {
        let (number, _) = self.servers.range(conn..).next()?;
        Some(*number)
    }

    /// Whether a connection to a server is open.
    pub fn has_server(&self) -> bool
        ensures { result ≡ nat_lt 0 (length self.now.servers) }
    {
        !self.servers.is_empty()
    }

    /// Closes the oldest client's connection that waits for nothing; false if there is none.
    #[tactic(auto, using(crate::proofs::Ends::fewer_without_idle))]
    fn close_oldest(&mut self) -> bool
        ensures closed { self.new ≡ without_first (first_idle self.old.clients) self.old }
        ensures found { result ≡ is_some (first_idle self.old.clients) }
        ensures fewer { IsTrue result → length self.new.clients < length self.old.clients }
    {
        match self.clients.oldest_idle() {
            Some(conn) => {
                self.close_client(conn);
                true
            }
            None => false,
        }
    }
}
