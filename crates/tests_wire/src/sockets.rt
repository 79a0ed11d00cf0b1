//! A question and its answer over sockets of this machine, by UDP and over TCP. The test plays
//! server and client, and takes turns one after another, so there is a single thread. Ports 15353
//! to 15356 have to be free.
//!
//! Wire and forwarder are forgotten, since each test has a process of its own: dropping them would
//! need a proof here.

use crate::worked::{ANSWER, QUERY, QUESTION, REPLY};
use lru::DefaultHasher;
use mio::net::{TcpStream, UdpSocket};
use network_model::{Forwarder, serve};
use socket_wire::MioWire;
use std::alloc::Global;
use std::io::{Read, Write};
use std::mem::forget;
use std::net::{Ipv4Addr, SocketAddr, SocketAddrV4};
use std::test::Fail;
use suffix_routes::{Config, Limits, Peer};

/// The most calls of `serve` until a packet arrives.
const CALLS: u32 = 400;

/// The configuration for a question by UDP. Nothing times out, even on a slow machine: an ask and a
/// question wait as long as a configuration allows.
const BY_UDP: &str = "version = 1
listen = \"127.0.0.1:15353\"
[limits]
ask_ms = 10000
deadline_ms = 30000
[[route]]
suffix = \".\"
servers = [\"127.0.0.1:15354\"]
";

/// The configuration for a question over TCP.
const OVER_TCP: &str = "version = 1
listen = \"127.0.0.1:15355\"
[limits]
ask_ms = 10000
deadline_ms = 30000
[[route]]
suffix = \".\"
servers = [\"127.0.0.1:15356\"]
";

/// A forwarder with this configuration.
fn forwarder_of(alloc: Global, text: &str) -> Result<Forwarder<DefaultHasher>, Fail> {
    let config = Config::read(alloc, alloc, text)?;
    Ok(Forwarder::new(alloc, config, DefaultHasher::default())?)
}

/// This port on this machine.
const fn local(port: u16) -> Peer {
    Peer {
        ip: [127, 0, 0, 1],
        port,
    }
}

fn address(port: u16) -> SocketAddr {
    SocketAddr::V4(SocketAddrV4::new(Ipv4Addr::LOCALHOST, port))
}

/// The limits of both configurations that a wire knows.
fn limits() -> Limits {
    let mut limits = Limits::defaults();
    limits.deadline_ms = 30_000;
    limits
}

/// Fails unless the traffic is as expected.
fn expected(is_so: bool) -> Result<(), Fail> {
    if is_so {
        Ok(())
    } else {
        Err(Fail::from("other octets than expected"))
    }
}

/// Replies to an arrived query, under the query's identifier, to the sender. Returns whether a
/// query arrived.
fn is_query_replied(server: &UdpSocket) -> Result<bool, Fail> {
    let mut query = [0u8; 64];
    let Ok((count, from)) = server.recv_from(&mut query) else {
        return Ok(false);
    };
    expected(count == QUERY.len() && query[2..27] == QUERY[2..])?;
    let mut reply = [0u8; 43];
    reply.copy_from_slice(REPLY);
    reply[..2].copy_from_slice(&query[..2]);
    server.send_to(&reply, from)?;
    Ok(true)
}

/// Calls of `turns` turns until the query arrives and gets a reply.
fn reply_to_query(
    alloc: Global,
    wire: &mut MioWire<'_, HostRuntime>,
    forwarder: &mut Forwarder<DefaultHasher>,
    turns: u64,
    server: &UdpSocket,
) -> Result<(), Fail> {
    for _ in 0..CALLS {
        serve(alloc, wire, forwarder, turns)?;
        if is_query_replied(server)? {
            return Ok(());
        }
    }
    Err(Fail::from("no query came"))
}

/// Turns until the answer arrives by UDP.
fn answer_by_udp(
    alloc: Global,
    wire: &mut MioWire<'_, HostRuntime>,
    forwarder: &mut Forwarder<DefaultHasher>,
    client: &UdpSocket,
) -> Result<(), Fail> {
    let mut answer = [0u8; 64];
    for _ in 0..CALLS {
        serve(alloc, wire, forwarder, 1)?;
        if let Ok((count, from)) = client.recv_from(&mut answer) {
            return expected(from == address(15353) && &answer[..count] == ANSWER);
        }
    }
    Err(Fail::from("no answer came"))
}

/// Reads octets from TCP into the answer, after the first `count` octets. Returns the number of
/// read octets.
fn received(client: &mut TcpStream, answer: &mut [u8], count: usize) -> usize {
    match answer.get_mut(count..) {
        Some(room) => client.read(room).unwrap_or(0),
        None => 0,
    }
}

/// Turns until the answer arrives over TCP.
fn answer_over_tcp(
    alloc: Global,
    wire: &mut MioWire<'_, HostRuntime>,
    forwarder: &mut Forwarder<DefaultHasher>,
    client: &mut TcpStream,
) -> Result<(), Fail> {
    let mut answer = [0u8; 64];
    let mut count = 0usize;
    for _ in 0..CALLS {
        serve(alloc, wire, forwarder, 20)?;
        count = count.saturating_add(received(client, &mut answer, count));
        if count >= 45 {
            return expected(count == 45 && answer[..2] == [0, 43] && &answer[2..45] == ANSWER);
        }
    }
    Err(Fail::from("no answer came"))
}

/// Sends the question in two pieces.
fn send_in_two_pieces(client: &mut TcpStream) -> Result<(), Fail> {
    client.set_nodelay(true)?;
    expected(client.write(b"\x00\x1b\x12")? == 3)?;
    expected(client.write(&QUESTION[1..])? == 26)
}

/// The question's transport.
#[derive(Clone, Copy)]
enum By {
    Udp,
    Tcp,
}

impl By {
    fn config(self) -> &'static str {
        match self {
            By::Udp => BY_UDP,
            By::Tcp => OVER_TCP,
        }
    }

    /// The wire's listening port.
    fn listen(self) -> u16 {
        match self {
            By::Udp => 15353,
            By::Tcp => 15355,
        }
    }

    /// The server's port.
    fn server(self) -> u16 {
        match self {
            By::Udp => 15354,
            By::Tcp => 15356,
        }
    }
}

/// The question by UDP.
fn ask_by_udp(
    rt: &HostRuntime,
    wire: &mut MioWire<'_, HostRuntime>,
    forwarder: &mut Forwarder<DefaultHasher>,
    server: &UdpSocket,
    client: &UdpSocket,
) -> Result<(), Fail> {
    client.send_to(&QUESTION, address(15353))?;
    reply_to_query(rt.alloc(), wire, forwarder, 1, server)?;
    answer_by_udp(rt.alloc(), wire, forwarder, client)
}

/// The question over TCP, in two pieces.
fn ask_over_tcp(
    rt: &HostRuntime,
    wire: &mut MioWire<'_, HostRuntime>,
    forwarder: &mut Forwarder<DefaultHasher>,
    server: &UdpSocket,
    client: &mut TcpStream,
) -> Result<(), Fail> {
    send_in_two_pieces(client)?;
    reply_to_query(rt.alloc(), wire, forwarder, 20, server)?;
    answer_over_tcp(rt.alloc(), wire, forwarder, client)
}

/// A new client's question.
fn ask_anew(
    rt: &HostRuntime,
    by: By,
    wire: &mut MioWire<'_, HostRuntime>,
    forwarder: &mut Forwarder<DefaultHasher>,
    server: &UdpSocket,
) -> Result<(), Fail> {
    match by {
        By::Udp => {
            let client = UdpSocket::bind(rt, address(0))?;
            ask_by_udp(rt, wire, forwarder, server, &client)
        }
        By::Tcp => {
            let mut client = TcpStream::connect(rt, address(15355))?;
            ask_over_tcp(rt, wire, forwarder, server, &mut client)
        }
    }
}

/// A new client's question over a new wire. The wire is forgotten.
fn ask_over_wire(
    rt: &HostRuntime,
    by: By,
    forwarder: &mut Forwarder<DefaultHasher>,
    server: &UdpSocket,
) -> Result<(), Fail> {
    let mut wire = MioWire::new(rt, rt.alloc(), local(by.listen()), &limits())?;
    let asked = ask_anew(rt, by, &mut wire, forwarder, server);
    forget(wire);
    asked
}

/// A new client's question to a new forwarder with a new server. The forwarder is forgotten, too.
fn ask(rt: &HostRuntime, by: By) -> Result<(), Fail> {
    let server = UdpSocket::bind(rt, address(by.server()))?;
    let mut forwarder = forwarder_of(rt.alloc(), by.config())?;
    let asked = ask_over_wire(rt, by, &mut forwarder, &server);
    forget(forwarder);
    asked
}

#[test]
fn a_question_by_udp(rt: HostRuntime) -> Result<(), Fail> {
    ask(&rt, By::Udp)
}

#[test]
fn a_question_over_tcp_in_two_pieces(rt: HostRuntime) -> Result<(), Fail> {
    ask(&rt, By::Tcp)
}
