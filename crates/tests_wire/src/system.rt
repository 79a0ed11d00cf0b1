//! A wire over sockets of this machine. Calls through the runtime are the test's own: random
//! octets, clock, and sockets for datagrams. Ports 15357 to 15369 have to be free. A wire is
//! forgotten, as in `sockets`.

use crate::worked::{QUERY, forwarder};
use lru::DefaultHasher;
use mio::net::TcpStream;
use network_model::{Arrival, Forwarder, Wire, serve};
use plain_values::PlainList;
use refusing_allocator::Refusing;
use socket_wire::MioWire;
use std::alloc::{Allocator, Global};
use std::cell::Cell;
use std::io::{ErrorKind, Write};
use std::mem::forget;
use std::net::{Ipv4Addr, Net, SocketAddr, SocketAddrV4};
use std::random::RandomSource;
use std::rt::Clock;
use std::test::Fail;
use std::time::Duration;
use std::{io, net};
use step_values::Action;
use suffix_routes::{Limits, Peer};

/// The most turns until an arrival.
pub(crate) const TURNS: u32 = 400;

/// The error number for a lack of descriptors (EMFILE).
const NO_DESCRIPTOR: i32 = 24;

/// The error number for a taken port (EADDRINUSE).
const TAKEN_PORT: i32 = 98;

/// The error number for an unreachable network (ENETUNREACH).
const NO_NETWORK: i32 = 101;

/// Calls of this machine's system, each with an answer that a test can replace.
#[derive(Drop)]
pub(crate) struct System<'a> {
    pub(crate) host: &'a HostRuntime,
    /// The number of random octets asked for, in all calls.
    octets: Cell<usize>,
    /// No random octets are given.
    has_no_octets: Cell<bool>,
    /// Random octets to give in place of the machine's.
    pub(crate) seed: Cell<Option<[u8; 32]>>,
    /// The clock's time, and the time that passes after each reading.
    pub(crate) time: Cell<Duration>,
    pub(crate) step: Cell<Duration>,
    /// The clock fails.
    has_no_clock: Cell<bool>,
    /// The address of the last bound socket for datagrams.
    bound: Cell<Option<SocketAddr>>,
    /// The error of the next bind of a socket for datagrams, if any.
    refusal: Cell<Option<i32>>,
}

impl<'a> System<'a> {
    /// A system that answers like the machine's, with the clock stopped at 7 s.
    pub(crate) fn new(host: &'a HostRuntime) -> System<'a> {
        System {
            host,
            octets: Cell::new(0),
            has_no_octets: Cell::new(false),
            seed: Cell::new(None),
            time: Cell::new(Duration::from_millis(7_000)),
            step: Cell::new(Duration::ZERO),
            has_no_clock: Cell::new(false),
            bound: Cell::new(None),
            refusal: Cell::new(None),
        }
    }

    /// Moves the clock on.
    pub(crate) fn pass(&self, time: Duration) {
        self.time.set(self.time.get().saturating_add(time));
    }
}

impl RandomSource for System<'_> {
    fn fill_bytes(&self, buf: &mut [u8]) -> io::Result<()> {
        self.octets.set(self.octets.get().saturating_add(buf.len()));
        if self.has_no_octets.get() {
            return Err(io::Error::from(ErrorKind::Unsupported));
        }
        let Some(seed) = self.seed.get() else {
            return self.host.fill_bytes(buf);
        };
        let count = buf.len().min(seed.len());
        buf[..count].copy_from_slice(&seed[..count]);
        Ok(())
    }
}

impl Clock for System<'_> {
    fn monotonic(&self) -> io::Result<Duration> {
        if self.has_no_clock.get() {
            return Err(io::Error::from(ErrorKind::Unsupported));
        }
        let time = self.time.get();
        self.pass(self.step.get());
        Ok(time)
    }

    fn since_1970(&self) -> io::Result<Duration> {
        self.host.since_1970()
    }
}

impl Net for System<'_> {
    type Stream = net::TcpStream;

    type Listener = net::TcpListener;

    fn bind(&self, addr: SocketAddr) -> io::Result<net::TcpListener> {
        self.host.bind(addr)
    }

    fn connect(&self, addr: SocketAddr) -> io::Result<net::TcpStream> {
        self.host.connect(addr)
    }

    fn bind_udp(&self, addr: SocketAddr) -> io::Result<net::UdpSocket> {
        if let Some(code) = self.refusal.take() {
            return Err(io::Error::from_raw_os_error(code));
        }
        self.bound.set(Some(addr));
        self.host.bind_udp(addr)
    }
}

/// This port on this machine.
pub(crate) const fn local(port: u16) -> Peer {
    Peer {
        ip: [127, 0, 0, 1],
        port,
    }
}

pub(crate) fn address(ip: Ipv4Addr, port: u16) -> SocketAddr {
    SocketAddr::V4(SocketAddrV4::new(ip, port))
}

/// Fails with `what` unless `is_so`.
pub(crate) fn expected(is_so: bool, what: &'static str) -> Result<(), Fail> {
    if is_so { Ok(()) } else { Err(Fail::from(what)) }
}

/// A query by UDP from this port.
fn query_from(alloc: Global, port: u16) -> Result<Action, Fail> {
    Ok(Action::AskUdp {
        port,
        server: local(15369),
        bytes: PlainList::copied(alloc, &QUERY)?,
    })
}

#[test]
fn without_random_octets_there_is_no_wire(rt: HostRuntime) -> Result<(), Fail> {
    let system = System::new(&rt);
    system.has_no_octets.set(true);
    match MioWire::new(&system, rt.alloc(), local(15357), &Limits::defaults()) {
        Ok(wire) => {
            forget(wire);
            Err(Fail::from("a wire without random octets"))
        }
        Err(_) => Ok(()),
    }
}

#[test]
fn without_a_clock_there_is_no_wire(rt: HostRuntime) -> Result<(), Fail> {
    let system = System::new(&rt);
    system.has_no_clock.set(true);
    match MioWire::new(&system, rt.alloc(), local(15358), &Limits::defaults()) {
        Ok(wire) => {
            forget(wire);
            Err(Fail::from("a wire without a clock"))
        }
        Err(_) => Ok(()),
    }
}

/// The seed of ChaCha has 32 octets, all from the system. Clients' datagrams arrive at the
/// listening address, not at its port alone.
#[test]
fn a_wire_asks_for_32_octets_and_binds_where_it_listens(rt: HostRuntime) -> Result<(), Fail> {
    let system = System::new(&rt);
    let wire = MioWire::new(&system, rt.alloc(), local(15359), &Limits::defaults())?;
    forget(wire);
    assert_eq!(rt; system.octets.get(), 32);
    assert!(rt; system.bound.get() == Some(address(Ipv4Addr::LOCALHOST, 15359)));
    Ok(())
}

/// The moment of a wire's turn.
pub(crate) fn moment_in_turn(wire: &mut MioWire<'_, System<'_>>) -> u64 {
    let _arrived = wire.arrival();
    wire.moment()
}

/// If the clock fails, the last moment stays.
#[test]
fn a_moment_stays_where_the_clock_fails(rt: HostRuntime) -> Result<(), Fail> {
    let system = System::new(&rt);
    let mut wire = MioWire::new(&system, rt.alloc(), local(15360), &Limits::defaults())?;
    system.time.set(Duration::from_millis(7_250));
    let first = moment_in_turn(&mut wire);
    system.has_no_clock.set(true);
    let failed = moment_in_turn(&mut wire);
    forget(wire);
    assert_eq!(rt; first, 250);
    assert_eq!(rt; failed, 250);
    Ok(())
}

/// An ask's socket is bound at the ask's port on every address. A second socket at the port is
/// refused.
#[test]
fn an_ask_is_bound_at_its_port(rt: HostRuntime) -> Result<(), Fail> {
    let system = System::new(&rt);
    let mut wire = MioWire::new(&system, rt.alloc(), local(15361), &Limits::defaults())?;
    let query = query_from(rt.alloc(), 15362)?;
    let first = wire.put(&query).is_ok();
    let second = wire.put(&query).is_ok();
    let faults = wire.faults();
    forget(wire);
    assert!(rt; first);
    assert!(rt; system.bound.get() == Some(address(Ipv4Addr::UNSPECIFIED, 15362)));
    assert!(rt; !second);
    assert_eq!(rt; faults, 1);
    Ok(())
}

/// Turns until a piece of a client's stream arrives: the connection's number.
pub(crate) fn client_that_came<A: Allocator + Copy>(
    wire: &mut MioWire<'_, System<'_>, A>,
) -> Option<u64> {
    for _ in 0..TURNS {
        let came = wire.arrival();
        let _moment = wire.moment();
        if let Ok(Arrival::ClientStream { conn, .. }) = came {
            return Some(conn);
        }
    }
    None
}

/// Puts a query, with this error for the socket's bind. Returns whether the query was sent
/// nevertheless, and whether a client was closed for the query.
fn put_where_refused(
    system: &System<'_>,
    wire: &mut MioWire<'_, System<'_>>,
    query: &Action,
    code: i32,
) -> (bool, bool) {
    system.refusal.set(Some(code));
    let is_sent = wire.put(query).is_ok();
    let is_closed = match wire.arrival() {
        Ok(Arrival::ClientClosed { .. }) => true,
        _ => false,
    };
    (is_sent, is_closed)
}

/// A client sends these octets.
pub(crate) fn send(client: &mut TcpStream, octets: &[u8]) -> Result<(), Fail> {
    client.set_nodelay(true)?;
    expected(
        client.write(octets)? == octets.len(),
        "octets that were not taken",
    )
}

/// The results of three queries: with a taken port, an unreachable network, and a lack of
/// descriptors. Before, a client came, and its connection has been idle for a second.
fn puts_beside_a_client(
    system: &System<'_>,
    wire: &mut MioWire<'_, System<'_>>,
    query: &Action,
) -> Result<[(bool, bool); 3], Fail> {
    expected(client_that_came(wire) == Some(0), "no client came")?;
    system.time.set(Duration::from_millis(8_000));
    expected(moment_in_turn(wire) == 1_000, "another moment")?;
    Ok([
        put_where_refused(system, wire, query, TAKEN_PORT),
        put_where_refused(system, wire, query, NO_NETWORK),
        put_where_refused(system, wire, query, NO_DESCRIPTOR),
    ])
}

/// The results of these three queries, with a client that has sent an octet.
fn puts_beside_a_resting_client(
    system: &System<'_>,
    wire: &mut MioWire<'_, System<'_>>,
    query: &Action,
) -> Result<[(bool, bool); 3], Fail> {
    let mut client = TcpStream::connect(system.host, address(Ipv4Addr::LOCALHOST, 15363))?;
    send(&mut client, b"\x00")?;
    puts_beside_a_client(system, wire, query)
}

#[test]
fn a_resting_client_is_closed_for_a_descriptor_alone(rt: HostRuntime) -> Result<(), Fail> {
    let system = System::new(&rt);
    let query = query_from(rt.alloc(), 15364)?;
    let mut wire = MioWire::new(&system, rt.alloc(), local(15363), &Limits::defaults())?;
    let came = puts_beside_a_resting_client(&system, &mut wire, &query);
    forget(wire);
    assert_eq!(rt; came?, [(false, false), (false, false), (true, true)]);
    Ok(())
}

/// Whether calls of a turn run out of memory for a client's frames, while this heap has none for
/// them.
fn ends_without_memory<'a>(
    heap: &'a Refusing<Global>,
    wire: &mut MioWire<'_, HostRuntime, &'a Refusing<Global>>,
    forwarder: &mut Forwarder<DefaultHasher, &'a Refusing<Global>>,
) -> bool {
    heap.allow(0);
    for _ in 0..TURNS {
        if serve(heap, wire, forwarder, 1).is_err() {
            return true;
        }
    }
    false
}

/// Whether calls of a turn run out of memory for a client sending the beginning of a frame.
fn ends_with_a_client<'a>(
    rt: &HostRuntime,
    heap: &'a Refusing<Global>,
    wire: &mut MioWire<'_, HostRuntime, &'a Refusing<Global>>,
    forwarder: &mut Forwarder<DefaultHasher, &'a Refusing<Global>>,
) -> Result<bool, Fail> {
    let mut client = TcpStream::connect(rt, address(Ipv4Addr::LOCALHOST, 15365))?;
    send(&mut client, b"\x00\x1b\x12")?;
    Ok(ends_without_memory(heap, wire, forwarder))
}

/// Whether calls of a turn over a new wire with ample memory run out of memory for a client. The
/// wire is forgotten.
fn ends_over_wire<'a>(
    rt: &HostRuntime,
    ample: &'a Refusing<Global>,
    heap: &'a Refusing<Global>,
    forwarder: &mut Forwarder<DefaultHasher, &'a Refusing<Global>>,
) -> Result<bool, Fail> {
    let mut wire = MioWire::new(rt, ample, local(15365), &Limits::defaults())?;
    let ended = ends_with_a_client(rt, heap, &mut wire, forwarder);
    forget(wire);
    ended
}

/// Whether calls of a turn of a new forwarder with ample memory run out of memory for a client. The
/// forwarder is forgotten, too.
fn ends(rt: &HostRuntime) -> Result<bool, Fail> {
    let ample = Refusing::new(rt.alloc());
    let heap = Refusing::new(rt.alloc());
    let mut forwarder = forwarder(&ample)?;
    let ended = ends_over_wire(rt, &ample, &heap, &mut forwarder);
    forget(forwarder);
    ended
}

/// The program then ends with status 4, by `forwarder_commands`.
#[test]
fn a_stream_without_memory_ends_the_service(rt: HostRuntime) -> Result<(), Fail> {
    assert!(rt; ends(&rt)?);
    Ok(())
}
