//! The sockets of a wire, and what arrives on them.

ghost use Rattle.std.specs.Prelude.{◌≡◌, ◌∷◌, ◌++◌, [], IfOk, Ok, true};
ghost use Rattle.system_calls.specs.Call.{start_clock};
ghost use Rattle.socket_wire.specs.Arriving.{AreNew, ReportsEnd};
ghost use Rattle.socket_wire.specs.Attempting.{TriesReady};
ghost use Rattle.socket_wire.specs.Listening.{OpensBoth};
ghost use Rattle.socket_wire.specs.Looking.{EndsTurn, Looks, TakesTurn, TakesTurnAtOnce, TriesReported, has_asks};
ghost use Rattle.socket_wire.specs.Moments.{ReadsOnce};
ghost use Rattle.socket_wire.specs.Words.{GivesWords};

mod putting;
mod taking;
mod trying;

use crate::address::address_of;
use crate::asks::Asks;
use crate::listeners::{connections_at, datagrams_at};
use crate::moments::Moments;
use crate::numbers::Numbers;
use crate::spare::Spare;
use crate::words::Words;
use plain_values::Octets;
use ready_sockets::Readiness;
use std::alloc::{AllocError, Allocator};
use std::io;
use std::marker::Model;
use std::net::Net;
use std::rt::Clock;
use step_values::Path;
use stream_connections::{Closed, Connections};
use suffix_routes::{Limits, Peer};
use system_calls::{Calls, DatagramSocket, Listener};
use taking::Tried;
use wires::Arrival;

/// The largest read, in octets: a datagram has no more.
const LARGEST: usize = 65_535;

/// The longest wait of a wire, in ms, and the time after which unreported sockets are tried.
const PAUSE: u64 = 5;

/// The most sockets that a turn tries.
const TRIES: u8 = 64;

/// The sockets of a wire. Contracts see all but the spare memory and the runtime, of whose type a
/// body has no second value.
#[derive(Drop)]
pub(crate) struct Sockets<'a, R: Net, A: Allocator> {
    rt: &'a R,
    /// The system's calls, for proofs alone.
    calls: Calls,
    alloc: A,
    readiness: Readiness<A>,
    datagrams: DatagramSocket,
    listener: Listener,
    /// The connections of clients and of asks.
    connections: Connections<A>,
    numbers: Numbers,
    asks: Asks<A>,
    buffer: Box<[u8; LARGEST], A>,
    spare: Spare<A>,
    words: Words,
    /// The time, in ms, for which a question may wait for its reply.
    deadline: u64,
    /// The moment, in ms, of the last sweep of unreported sockets, and the number of these sweeps
    /// modulo 256.
    tried: u64,
    sweeps: u8,
    next_client: u64,
    next_ask: u16,
    next_server: u64,
}

impl<'a, R: Net, A: Allocator> Model for Sockets<'a, R, A> {
    ghost use Rattle.socket_wire.specs.Seen.{SeenSockets};

    ghost Value = { SeenSockets A };

    ghost view = { λ s. record {
      calls = s.calls;
      alloc = s.alloc;
      readiness = s.readiness;
      datagrams = s.datagrams;
      listener = s.listener;
      connections = s.connections;
      numbers = s.numbers;
      asks = s.asks;
      buffer = s.buffer.value;
      words = s.words;
      deadline = s.deadline;
      tried = s.tried;
      sweeps = s.sweeps;
      next_client = s.next_client;
      next_ask = s.next_ask;
      next_server = s.next_server;
    } };
}

impl<'a, R: Net, A: Allocator + Copy> Sockets<'a, R, A> {
    /// Listens at the peer's address by UDP and TCP. `Err` if the system refuses, or memory ran
    /// out.
    pub fn new(
        mut calls: Calls,
        rt: &'a R,
        alloc: A,
        listen: Peer,
        limits: &Limits,
        words: Words,
    ) -> io::Result<Sockets<'a, R, A>>
        ensures new { IfOk result (λ sockets. AreNew sockets) }
        ensures alloc { IfOk result (λ sockets. sockets.alloc ≡ alloc) }
        ensures deadline { IfOk result (λ sockets. sockets.deadline ≡ limits.now.deadline_ms) }
        ensures words { IfOk result (λ sockets. sockets.words ≡ words) }
        ensures opens { IfOk result (λ sockets.
            OpensBoth listen sockets.datagrams sockets.listener calls sockets.calls) }
    {
        let readiness = Readiness::new(&mut calls, rt, alloc)?;
        let at = address_of(listen);
        let datagrams = datagrams_at(&mut calls, rt, &readiness, at)?;
        let listener = connections_at(&mut calls, rt, &readiness, at)?;
        let buffer = Box::new(alloc, [0u8; LARGEST])?;
        Ok(Sockets {
            rt,
            calls,
            alloc,
            readiness,
            datagrams,
            listener,
            connections: Connections::new(alloc),
            numbers: Numbers::new(),
            asks: Asks::new(alloc),
            buffer,
            spare: Spare::new(alloc),
            words,
            deadline: limits.deadline_ms,
            tried: 0,
            sweeps: 0,
            next_client: 0,
            next_ask: 0,
            next_server: 0,
        })
    }

    /// Returns the random words for the next step.
    pub fn words(&mut self) -> [u32; 8]
        ensures gives { GivesWords result self.old.words self.new.words }
        ensures rest { self.new ≡ record self.old { words = self.new.words } }
    {
        self.words.next()
    }

    /// Starts the clock. `Err` if it fails.
    pub fn started<'c, C: Clock>(&mut self, clock: &'c C) -> io::Result<Moments<'c, C>>
        ensures new { IfOk result (λ moments. (moments.last ≡ 0) × (moments.given.calls ≡ [])) }
        ensures calls { IfOk result (λ moments.
            self.new.calls ≡ self.old.calls ++ start_clock (Ok moments.started) ∷ []) }
        ensures rest { self.new ≡ record self.old { calls = self.new.calls } }
    {
        Moments::new(&mut self.calls, clock)
    }

    /// Returns the moment, in ms.
    pub fn moment<C: Clock>(&mut self, moments: &mut Moments<'_, C>) -> u64
        ensures report { result ≡ moments.new.last }
        ensures reads { ReadsOnce moments.old.is_read moments.old.started moments.old.last
            moments.new.last self.old.calls self.new.calls }
        ensures moments { moments.new
            ≡ record moments.old { last = moments.new.last; is_read = true } }
        ensures rest { self.new ≡ record self.old { calls = self.new.calls } }
    {
        moments.now(&mut self.calls)
    }

    /// Gives a step its moment, in ms, and notes it.
    pub fn give_moment<C: Clock>(&mut self, moments: &mut Moments<'_, C>) -> u64
        ensures reads { ReadsOnce moments.old.is_read moments.old.started moments.old.last result
            self.old.calls self.new.calls }
        ensures report { result ≡ moments.new.last }
        ensures notes { moments.new.given.calls ≡ moments.old.given.calls ++ (result, tt) ∷ [] }
        ensures moments { moments.new ≡ record moments.old {
          last = moments.new.last;
          is_read = true;
          given = moments.new.given;
        } }
        ensures rest { self.new ≡ record self.old { calls = self.new.calls } }
    {
        moments.give(&mut self.calls)
    }

    /// Takes back the memory of served octets, for the next arrivals.
    pub fn take_back(&mut self, octets: &mut Octets<A>)
        ensures { self.new ≡ self.old }
    {
        self.spare.keep(self.alloc, octets);
    }

    /// Returns the next arrival. The end of a connection that the wire closed comes first.
    pub fn arrival(&mut self, now: u64) -> Result<Arrival<A>, AllocError>
        ensures end { ReportsEnd result self.old self.new }
        ensures turn { self.old.connections.closed ≡ []
            → TakesTurnAtOnce now result self.old self.new }
    {
        match self.connections.next_end() {
            Some(Closed::Client(conn)) => Ok(Arrival::ClientClosed { conn }),
            Some(Closed::Server(conn)) => {
                let path = Path::Tcp(conn);
                Ok(Arrival::PathGone { path })
            }
            None => self.take_turn(now),
        }
    }

    /// Returns the arrival of a socket reported by the events of a wait, without waiting.
    pub fn reported(&mut self, now: u64) -> Result<Arrival<A>, AllocError>
        ensures { TriesReported now result self.old self.new }
    {
        Ok(self.try_ready(now)?.unwrap_or(Arrival::Nothing))
    }

    /// Returns the next arrival where no end is to be reported.
    fn take_turn(&mut self, now: u64) -> Result<Arrival<A>, AllocError>
        ensures { TakesTurn now result self.old self.new }
    {
        self.look(now);
        match self.try_ready(now)? {
            Some(arrival) => Ok(arrival),
            None => {
                self.end_turn();
                Ok(Arrival::Nothing)
            }
        }
    }

    /// Ends a turn without an arrival. Waits if nothing may be ready any more. Sockets reported
    /// then are for `reported`, at the moment after the wait.
    fn end_turn(&mut self)
        ensures { EndsTurn self.old self.new }
    {
        if self.readiness.is_empty() {
            self.readiness.wait(&mut self.calls, PAUSE);
        }
    }

    /// Looks for ready sockets, without a wait. Before unreported sockets are tried, events are
    /// taken only if something may be ready. Otherwise the turn waits for events once these sockets
    /// turn out empty.
    fn look(&mut self, now: u64)
        ensures { Looks now self.old self.new }
    {
        if now.saturating_sub(self.tried) >= PAUSE {
            self.tried = now;
            if !self.readiness.is_empty() {
                self.readiness.wait(&mut self.calls, 0);
            }
            self.try_others();
            return;
        }
        if !self.readiness.is_empty() && self.readiness.has_no_server() && self.has_asks() {
            self.readiness.wait(&mut self.calls, 0);
        }
    }

    /// Returns the arrival of a socket that may be ready. `None` if none is ready any more, or many
    /// were tried.
    fn try_ready(&mut self, now: u64) -> Result<Option<Arrival<A>>, AllocError>
        ensures { TriesReady 64 now result self.old self.new }
    {
        for _tried in 0..TRIES {
            let Some(origin) = self.readiness.next() else {
                return Ok(None);
            };
            match self.attempt(origin, now)? {
                Tried::Arrived(arrival) => return Ok(Some(arrival)),
                Tried::Served => return Ok(Some(Arrival::Nothing)),
                Tried::Nothing => self.readiness.remove(origin),
            }
        }
        Ok(None)
    }

    /// Whether a socket or a connection of an ask is open.
    fn has_asks(&self) -> bool
        ensures { result ≡ has_asks self.now }
    {
        self.asks.has_any() || self.connections.has_server()
    }
}
