//! Sockets that may be ready, and the next to try.

ghost use Rattle.std.specs.Prelude.{◌≡◌, ◌≤◌, ◌+◌, ◌*◌, ◌%◌, [], IsTrue, IfOk, OnErr, OnOk};
ghost use Rattle.std.specs.Prelude.{IsSomeAnd, ◌↔◌};
ghost use Rattle.std.specs.Duration.{as_nanos};
ghost use Rattle.mio.specs.Events.{capacity as events_capacity, items};
ghost use Rattle.std.specs.BTreeSet.{btree_set_len};
ghost use Rattle.system_calls.specs.Call.{watch_datagrams, watch_listener, watch_stream};
ghost use Rattle.ready_sockets.specs.declared.origin.Origin.TheVariants.{Connections};
ghost use Rattle.ready_sockets.specs.Calling.{IsRegistered, MakesReports, WaitsFor, Watches};
ghost use Rattle.ready_sockets.specs.Trying.{Dropped, Finds, Gives, GivesOnTurn, HasDatagramsAlone};
ghost use Rattle.ready_sockets.specs.Trying.{IsBegun, IsNothing, Noted, NotedStay, NotesEach};
ghost use Rattle.ready_sockets.specs.Trying.{NotesEvent};

use crate::origin::Origin;
use mio::event::Event;
use mio::{Events, Interest, Token};
use std::alloc::{AllocError, Allocator};
use std::collections::BTreeSet;
use std::io;
use std::marker::Model;
use std::net::Net;
use std::time::Duration;
use system_calls::{Calls, DatagramSocket, Listener, Reports, Stream};

/// How many events of the system are taken at once.
const EVENTS: usize = 64;

/// The sockets that may be ready: reported by the system, or to be tried all the same. Each socket
/// stays until a call would have blocked. Contracts see which sockets may be ready, the last turn,
/// and the events of the last poll.
#[derive(Drop)]
pub struct Readiness<A: Allocator> {
    reports: Reports,
    events: Events<A>,
    ready: Ready<A>,
    turn: u8,
}

impl<A: Allocator> Model for Readiness<A> {
    ghost use Rattle.mio.specs.Events.{items};
    ghost use Rattle.ready_sockets.specs.Seen.{SeenReadiness};

    ghost Value = { SeenReadiness A };

    ghost view = { λ r. record {
      ready = r.ready;
      turn = r.turn;
      events = items r.events;
    } };
}

impl<A: Allocator + Copy> Readiness<A> {
    /// Only the socket for datagrams may be ready. `Err` if the system refuses, or memory ran out.
    pub fn new(calls: &mut Calls, net: &impl Net, alloc: A) -> io::Result<Readiness<A>>
        ensures begun { IfOk result (λ readiness.
            IsBegun readiness.ready × (readiness.turn ≡ 0)) }
        ensures calls { MakesReports calls.old calls.new }
    {
        Ok(Readiness {
            reports: calls.make_reports(net)?,
            events: room_for_events(alloc)?,
            ready: Ready {
                datagrams: true,
                streams: Tokens::new(alloc),
                servers: Tokens::new(alloc),
            },
            turn: 0,
        })
    }

    /// Has the system report when the socket for datagrams is ready. `Err` if the system refuses.
    pub fn watch_datagrams(
        &self,
        calls: &mut Calls,
        socket: &mut DatagramSocket,
        origin: Origin,
    ) -> io::Result<()>
        ensures calls { Watches origin (λ token interest.
            watch_datagrams socket.old token interest result) calls.old calls.new }
        ensures same { socket.new ≡ socket.old }
    {
        let (token, interest) = registered(origin);
        calls.watch_datagrams(&self.reports, socket, token, interest)
    }

    /// Has the system report when the listener is ready. `Err` if the system refuses.
    pub fn watch_listener(&self, calls: &mut Calls, listener: &mut Listener) -> io::Result<()>
        ensures calls { Watches Connections (λ token interest.
            watch_listener listener.old token interest result) calls.old calls.new }
        ensures same { listener.new ≡ listener.old }
    {
        let (token, interest) = registered(Origin::Connections);
        calls.watch_listener(&self.reports, listener, token, interest)
    }

    /// Has the system report when the stream is ready. `Err` if the system refuses.
    pub fn watch_stream(
        &self,
        calls: &mut Calls,
        stream: &mut Stream,
        origin: Origin,
    ) -> io::Result<()>
        ensures calls { Watches origin (λ token interest.
            watch_stream stream.old token interest result) calls.old calls.new }
        ensures same { stream.new ≡ stream.old }
    {
        let (token, interest) = registered(origin);
        calls.watch_stream(&self.reports, stream, token, interest)
    }

    /// Waits until a socket is ready, for `pause` milliseconds at most, and notes the sockets
    /// reported by the system. Noted sockets stay noted.
    pub fn wait(&mut self, calls: &mut Calls, pause: u64)
        requires { pause ≤ 5 }
        ensures each { NotesEach self.new.events self.old.ready self.new.ready }
        ensures stay { NotedStay self.old.ready self.new.ready }
        ensures turn { self.new.turn ≡ self.old.turn }
        ensures waits { WaitsFor pause calls.old calls.new }
    {
        let polled = calls.wait(&mut self.reports, &mut self.events, pause_of(pause));
        self.note_events(polled);
    }

    /// Notes the sockets reported by the events, unless the poll failed.
    fn note_events(&mut self, polled: io::Result<()>)
        ensures ok { OnOk polled (NotesEach self.old.events self.old.ready self.new.ready) }
        ensures err { OnErr polled (self.new.ready ≡ self.old.ready) }
        ensures stay { NotedStay self.old.ready self.new.ready }
        ensures turn { self.new.turn ≡ self.old.turn }
        ensures rest { self.new ≡ record self.old { ready = self.new.ready } }
    {
        if polled.is_ok() {
            self.ready.note_each(&self.events);
        }
    }

    /// Notes that the socket may be ready. Out of memory, nothing changes.
    pub fn add(&mut self, origin: Origin)
        ensures noted { Noted origin self.old.ready self.new.ready }
        ensures rest { self.new ≡ record self.old { ready = self.new.ready } }
    {
        self.ready.add(origin);
    }

    /// Notes the socket no longer: a call would have blocked.
    pub fn remove(&mut self, origin: Origin)
        ensures dropped { Dropped origin self.old.ready self.new.ready }
        ensures rest { self.new ≡ record self.old { ready = self.new.ready } }
    {
        self.ready.remove(origin);
    }

    /// Nothing may be ready.
    pub fn is_empty(&self) -> bool
        ensures { IsTrue result ↔ IsNothing self.now.ready }
    {
        !self.ready.datagrams
            && self.ready.streams.tokens.is_empty()
            && self.ready.servers.tokens.is_empty()
    }

    /// No socket of an ask may be ready.
    pub fn has_no_server(&self) -> bool
        ensures { IsTrue result ↔ (btree_set_len self.now.ready.servers.tokens ≡ 0) }
    {
        self.ready.servers.tokens.is_empty()
    }

    /// The next socket to try: of clients and of asks alternately, and of clients' datagrams and
    /// streams alternately. `None` if none may be ready. Mostly only datagrams may be ready, and
    /// then the turns of the rest are skipped at once.
    pub fn next(&mut self) -> Option<Origin>
        ensures finds { Finds 4 result self.old.turn self.new.turn self.old.ready self.new.ready }
        ensures rest { self.new ≡ record self.old { turn = self.new.turn; ready = self.new.ready } }
    {
        if self.ready.has_datagrams_alone() {
            self.turn = 1;
            return Some(Origin::Datagrams);
        }
        for _tried in 0..4u8 {
            let next = self.next_on_turn();
            if next.is_some() {
                return next;
            }
        }
        None
    }

    /// The next socket of the kind whose turn it is.
    fn next_on_turn(&mut self) -> Option<Origin>
        ensures turn { self.new.turn ≡ self.old.turn % 4 + 1 }
        ensures gives { GivesOnTurn self.new.turn result self.old.ready self.new.ready }
        ensures rest { self.new ≡ record self.old { turn = self.new.turn; ready = self.new.ready } }
    {
        self.turn = self.turn % 4 + 1;
        match self.turn {
            1 => self.ready.datagrams.then_some(Origin::Datagrams),
            3 => self.ready.streams.next(),
            _ => self.ready.servers.next(),
        }
    }
}

/// The sockets that may be ready.
#[derive(Drop)]
struct Ready<A: Allocator> {
    /// The socket for datagrams of clients.
    datagrams: bool,
    /// The listener and the connections of clients.
    streams: Tokens<A>,
    /// The sockets and connections of asks.
    servers: Tokens<A>,
}

impl<A: Allocator + Copy> Ready<A> {
    /// Notes the socket, unless memory ran out.
    fn add(&mut self, origin: Origin)
        ensures { Noted origin self.old self.new }
    {
        let Token(number) = origin.token();
        match origin {
            Origin::Datagrams => self.datagrams = true,
            Origin::Connections | Origin::Client(_) => {
                let _ = self.streams.tokens.insert(number);
            }
            Origin::Ask(_) | Origin::Server(_) => {
                let _ = self.servers.tokens.insert(number);
            }
        }
    }

    /// Notes the socket that the event reports, unless memory ran out.
    fn note(&mut self, event: &Event)
        ensures { NotesEvent event.now self.old self.new }
    {
        if let Some(origin) = Origin::of(event.token()) {
            self.add(origin);
        }
    }

    /// Notes the sockets that the events report.
    fn note_each(&mut self, events: &Events<A>)
        ensures each { NotesEach (items events.now) self.old self.new }
        ensures stay { NotedStay self.old self.new }
    {
        for event in events {
            self.note(event);
        }
    }

    /// The socket for datagrams may be ready, and nothing else.
    fn has_datagrams_alone(&self) -> bool
        ensures { IsTrue result ↔ HasDatagramsAlone self.now }
    {
        self.datagrams && self.streams.tokens.is_empty() && self.servers.tokens.is_empty()
    }

    /// Notes the socket no longer.
    fn remove(&mut self, origin: Origin)
        ensures { Dropped origin self.old self.new }
    {
        let Token(number) = origin.token();
        match origin {
            Origin::Datagrams => self.datagrams = false,
            Origin::Connections | Origin::Client(_) => {
                let _was = self.streams.tokens.remove(&number);
            }
            Origin::Ask(_) | Origin::Server(_) => {
                let _was = self.servers.tokens.remove(&number);
            }
        }
    }
}

/// Sockets that may be ready, by their tokens; they are tried in turn.
#[derive(Drop)]
struct Tokens<A: Allocator> {
    tokens: BTreeSet<usize, A>,
    /// The token of the socket that was tried last.
    last: usize,
}

impl<A: Allocator> Tokens<A> {
    /// No socket.
    fn new(alloc: A) -> Tokens<A>
        ensures { (result.tokens.keys ≡ []) × (result.last ≡ 0) }
    {
        Tokens {
            tokens: BTreeSet::new(alloc),
            last: 0,
        }
    }

    /// The next socket after the last tried one; after the last of the list the first.
    fn next(&mut self) -> Option<Origin>
        ensures { Gives result self.old self.new }
    {
        if self.tokens.is_empty() {
            return None;
        }
        let after = self.last.saturating_add(1);
        let next = match self.tokens.range(after..).next() {
            Some(token) => *token,
            None => *self.tokens.first()?,
        };
        self.last = next;
        Origin::of(Token(next))
    }
}

/// Room for the events of a poll.
fn room_for_events<A: Allocator + Copy>(alloc: A) -> Result<Events<A>, AllocError>
    ensures { IfOk result (λ events. events_capacity events ≡ 64) }
{
    Events::with_capacity(alloc, EVENTS)
}

/// The token of a socket, and what the system reports of it: each is read, and streams are written
/// in parts.
fn registered(origin: Origin) -> (Token, Interest)
    ensures { IsRegistered origin result.0 result.1 }
{
    let interest = match origin {
        Origin::Client(_) | Origin::Server(_) => Interest::READABLE | Interest::WRITABLE,
        Origin::Datagrams | Origin::Connections | Origin::Ask(_) => Interest::READABLE,
    };
    (origin.token(), interest)
}

/// The pause of a poll, of `millis` milliseconds.
fn pause_of(millis: u64) -> Option<Duration>
    ensures { IsSomeAnd result (λ pause. as_nanos pause ≡ millis * 1_000_000) }
{
    Some(Duration::from_millis(millis))
}
