//! Wires in memory with a script's turns, and a new forwarder's runs over them.

use crate::puts::{Puts, are_given_up, puts_of, unsent};
use crate::worked::{CLIENT, QUESTION, REPLY, SECOND, SERVER, forwarder, forwarder_to};
use lru::DefaultHasher;
use network_model::{Arrival, Forwarder, ScriptTurn, ScriptWire, Served, Wire, serve};
use plain_values::PlainList;
use std::alloc::{AllocError, Allocator};
use std::mem::forget;
use step_values::Path;
use suffix_routes::Peer;

/// A turn's arrival.
#[derive(Clone, Copy)]
pub(crate) enum Comes {
    Nothing,
    /// A client's datagram.
    Question(Peer, &'static [u8]),
    /// A piece of a client's stream on this connection.
    Piece(u64, &'static [u8]),
    /// A server's datagram at this port.
    Reply(u16, Peer, &'static [u8]),
    /// A piece of a server's stream on this connection.
    Stream(u64, Peer, &'static [u8]),
    Gone(Path),
}

/// A turn's moment, in ms, and arrival.
pub(crate) type Turn = (u64, Comes);

/// The reply answers the question.
pub(crate) const FIRST: [Turn; 2] = [
    (1000, Comes::Question(CLIENT, &QUESTION)),
    (1020, Comes::Reply(1032, SERVER, REPLY)),
];

fn arrival<A: Allocator + Copy>(alloc: A, comes: Comes) -> Result<Arrival<A>, AllocError> {
    match comes {
        Comes::Nothing => Ok(Arrival::Nothing),
        Comes::Question(from, bytes) => Ok(Arrival::ClientDatagram {
            from,
            bytes: PlainList::copied(alloc, bytes)?,
        }),
        Comes::Piece(conn, bytes) => Ok(Arrival::ClientStream {
            conn,
            bytes: PlainList::copied(alloc, bytes)?,
        }),
        Comes::Reply(port, from, bytes) => Ok(Arrival::ServerDatagram {
            port,
            from,
            bytes: PlainList::copied(alloc, bytes)?,
        }),
        Comes::Stream(conn, from, bytes) => Ok(Arrival::ServerStream {
            conn,
            from,
            bytes: PlainList::copied(alloc, bytes)?,
        }),
        Comes::Gone(path) => Ok(Arrival::PathGone { path }),
    }
}

/// The word for this identifier, and the port 1,024 above.
fn word(number: u16) -> u32 {
    u32::from(number) * 65_537
}

/// The words of the numbered turn, from 1: the first identifier is 8 times the number, each further
/// identifier the next.
fn words_of(turn: u8) -> [u32; 8] {
    let first = 8 * u16::from(turn);
    [
        word(first),
        word(first + 1),
        word(first + 2),
        word(first + 3),
        word(first + 4),
        word(first + 5),
        word(first + 6),
        word(first + 7),
    ]
}

/// A turn's words. A question in pieces is asked with the first turn's words, whichever piece ends
/// the question.
fn words_in(turn: u8, comes: Comes) -> [u32; 8] {
    match comes {
        Comes::Piece(..) => words_of(1),
        _ => words_of(turn),
    }
}

/// Adds a script's turns.
fn add_turns<A: Allocator + Copy>(
    alloc: A,
    script_turns: &mut Vec<ScriptTurn<A>, A>,
    turns: &[Turn],
) -> Result<(), AllocError> {
    let mut number = 0u8;
    for (moment, comes) in turns {
        number = number.saturating_add(1);
        script_turns.push(ScriptTurn {
            arrival: arrival(alloc, *comes)?,
            moment: *moment,
            words: words_in(number, *comes),
        })?;
    }
    Ok(())
}

/// A script's turns.
pub(crate) fn script_turns_of<A: Allocator + Copy>(
    alloc: A,
    turns: &[Turn],
) -> Result<Vec<ScriptTurn<A>, A>, AllocError> {
    let mut script_turns = Vec::new(alloc);
    match add_turns(alloc, &mut script_turns, turns) {
        Ok(()) => Ok(script_turns),
        Err(error) => Err(error),
    }
}

/// A wire of these turns, refusing the calls with these numbers.
pub(crate) fn wire_of<A: Allocator + Copy>(
    alloc: A,
    turns: &[Turn],
    refuse: &[u64],
) -> Result<ScriptWire<A>, AllocError> {
    let refuse = Vec::from_slice(alloc, refuse)?;
    let script_turns = script_turns_of(alloc, turns)?;
    Ok(ScriptWire::new(alloc, script_turns, refuse))
}

/// A run of a new forwarder over a wire in memory.
#[derive(Clone, Copy)]
pub(crate) struct Run<'a> {
    /// The wire's turns.
    pub script: &'a [Turn],
    /// The numbers of the refused calls.
    pub refuse: &'a [u64],
    /// Whether the route has a second server.
    pub has_second: bool,
    /// The number of turns.
    pub turns: u64,
}

/// A run's result.
#[derive(Clone, Copy, PartialEq, Eq, Debug)]
pub(crate) struct Ran {
    pub served: Served,
    /// The number of refused calls of the wire.
    pub faults: u64,
    pub puts: Puts,
    /// The number of unsent puts, and of unsent asks.
    pub unsent: (u64, u64),
    /// Whether after each unsent ask the next put closes the ask's path.
    pub are_given_up: bool,
}

/// A new forwarder with a single route for all names, with a server or two.
fn forwarder_of<A: Allocator + Copy>(
    alloc: A,
    has_second: bool,
) -> Result<Forwarder<DefaultHasher, A>, AllocError> {
    if has_second {
        forwarder_to(alloc, &[SERVER, SECOND])
    } else {
        forwarder(alloc)
    }
}

/// Serves `turns` turns over this wire with a new forwarder. The forwarder is forgotten: dropping
/// it would need a proof here.
pub(crate) fn serve_anew<A: Allocator + Copy>(
    alloc: A,
    wire: &mut ScriptWire<A>,
    has_second: bool,
    turns: u64,
) -> Result<Served, AllocError> {
    let mut forwarder = forwarder_of(alloc, has_second)?;
    let served = serve(alloc, wire, &mut forwarder, turns);
    forget(forwarder);
    served
}

/// The result of a run over this wire.
fn ran_over<A: Allocator + Copy>(
    alloc: A,
    wire: &mut ScriptWire<A>,
    run: &Run<'_>,
) -> Result<Ran, AllocError> {
    let served = serve_anew(alloc, wire, run.has_second, run.turns)?;
    Ok(Ran {
        served,
        faults: wire.faults(),
        puts: puts_of(wire.puts()),
        unsent: unsent(wire.puts()),
        are_given_up: are_given_up(wire.puts()),
    })
}

/// The result of a run over a new wire. The wire is forgotten, too.
pub(crate) fn ran_anew<A: Allocator + Copy>(alloc: A, run: &Run<'_>) -> Result<Ran, AllocError> {
    let mut wire = wire_of(alloc, run.script, run.refuse)?;
    let ran = ran_over(alloc, &mut wire, run);
    forget(wire);
    ran
}

/// The counts of `turns` turns with `refused_puts` refused puts and nothing lost.
pub(crate) fn counted(turns: u64, refused_puts: u64) -> Served {
    Served {
        turns,
        lost: 0,
        refused_puts,
        refused_arrivals: 0,
    }
}
