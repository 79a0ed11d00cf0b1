//! The connections of clients.

ghost use Rattle.std.specs.Prelude.{◌≡◌, ◌+◌, ◌<◌, ◌≤◌, if◌then◌else◌, [], length, nat_le, is_some, IfOk, OnOk, OnErr};
ghost use Rattle.std.specs.Ordering.{nat_cmp};
ghost use Rattle.std.specs.Map.{lookup, remove_entry};
ghost use Rattle.std.specs.BTreeMap.{is_at};
ghost use Rattle.stream_connections.specs.Listed.{Admits, RepliesOn, ServesOn, first_idle, first_number, first_resting};
ghost use Rattle.stream_connections.specs.Listed.{is_late_on};

use crate::answers::Heard;
use crate::client_stream::ClientStream;
use crate::lost::Lost;
use std::alloc::{AllocError, Allocator};
use std::collections::BTreeMap;
use std::marker::Model;
use system_calls::{Calls, Stream};

/// The most connections of clients.
const MOST: usize = 1024;

/// The open connections of clients, by their numbers, at most 1,024. Contracts see them in the
/// order of their numbers.
#[derive(Drop)]
pub(crate) struct Clients<A: Allocator> {
    open: BTreeMap<u64, ClientStream<A>, A>,
}

impl<A: Allocator> Model for Clients<A> {
    ghost use Rattle.std.specs.Prelude.{ℕ, ◌≤◌, List, length};
    ghost use Rattle.stream_connections.specs.declared.client_stream.ClientStream.{ClientStream};

    ghost Value = { List (ℕ × ClientStream A) };

    ghost view = { λ c. c.open.entries };

    ghost invariant = { λ c. length c.open.entries ≤ 1024 };
}

impl<A: Allocator + Copy> Clients<A> {
    /// Starts with no connection.
    pub fn new(alloc: A) -> Clients<A>
        ensures { result ≡ [] }
    {
        Clients {
            open: BTreeMap::new(alloc),
        }
    }

    /// Whether no further connection may be opened.
    pub fn is_full(&self) -> bool
        ensures full { result ≡ nat_le 1024 (length self.now) }
        ensures most { length self.now ≤ 1024 }
    {
        self.open.len() >= MOST
    }

    pub fn len(&self) -> usize
        ensures { result ≡ length self.now }
    {
        self.open.len()
    }

    /// Lists a connection under its number. Returns the one listed there before, if any.
    pub fn admit(
        &mut self,
        alloc: A,
        conn: u64,
        stream: Stream,
        now: u64,
    ) -> Result<Option<ClientStream<A>>, AllocError>
        requires { length self.old < 1024 }
        ensures ok { OnOk result (Admits conn stream now self.old self.new) }
        ensures before { IfOk result (λ before. before ≡ lookup (is_at (nat_cmp conn)) self.old) }
        ensures err { OnErr result (self.new ≡ self.old) }
        ensures number { length self.new ≤ length self.old + 1 }
    {
        let before = self
            .open
            .insert(conn, ClientStream::new(alloc, stream, now))?;
        Ok(before)
    }

    /// Sends the octets left for the client with this number, and reads a piece of its stream into
    /// the buffer; `None` if not open.
    pub fn serve(
        &mut self,
        calls: &mut Calls,
        conn: u64,
        buffer: &mut [u8],
        now: u64,
    ) -> Option<Heard>
        ensures serves { ServesOn conn result now buffer.new calls.old calls.new self.old self.new }
        ensures number { length self.new ≡ length self.old }
    {
        let client = self.open.get_mut(&conn)?;
        Some(client.serve(calls, buffer, now))
    }

    /// Replies to the client with this number, and returns whether its connection goes on; `None`
    /// if not open.
    pub fn reply(
        &mut self,
        calls: &mut Calls,
        alloc: A,
        conn: u64,
        reply: &[u8],
        now: u64,
    ) -> Option<Result<bool, Lost>>
        ensures replies { RepliesOn conn reply.now now result calls.old calls.new self.old self.new }
        ensures number { length self.new ≡ length self.old }
    {
        let client = self.open.get_mut(&conn)?;
        Some(client.reply(calls, alloc, reply, now))
    }

    /// Takes out the connection with this number, if open.
    pub fn take_out(&mut self, conn: u64) -> Option<ClientStream<A>>
        ensures open { result ≡ lookup (is_at (nat_cmp conn)) self.old }
        ensures rest { self.new ≡ remove_entry (is_at (nat_cmp conn)) self.old }
        ensures number { length self.new + (if is_some result then 1 else 0) ≡ length self.old }
    {
        self.open.remove(&conn)
    }

    /// The number of the oldest client that waits for nothing.
    pub fn oldest_idle(&self) -> Option<u64>
        ensures { result ≡ first_idle self.now }
    {
        for (conn, client) in &self.open {
            if client.is_idle() {
                return Some(*conn);
            }
        }
        None
    }

    /// The number of the oldest client that has waited for nothing for a second.
    pub fn oldest_resting(&self, now: u64) -> Option<u64>
        ensures { result ≡ first_resting now self.now }
    {
        for (conn, client) in &self.open {
            if client.is_resting(now) {
                return Some(*conn);
            }
        }
        None
    }

    /// Returns the first client from this number on.
    pub fn from(&self, conn: u64) -> Option<u64>
        ensures { result ≡ first_number conn self.now }
    {
        let (number, _) = self.open.range(conn..).next()?;
        Some(*number)
    }

    /// Whether the client with this number has been silent for too long (RFC 7766 6.2.3); false if
    /// not open.
    pub fn is_late(&self, conn: u64, now: u64, deadline: u64) -> bool
        ensures { result ≡ is_late_on conn now deadline self.now }
    {
        match self.open.get(&conn) {
            Some(client) => client.is_late(now, deadline),
            None => false,
        }
    }
}
