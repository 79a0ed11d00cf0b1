//! Turns over a wire with refused calls, and turns without memory.

use crate::puts::{Puts, puts_of};
use crate::scripts::{Comes, Run, Turn, counted, ran_anew, wire_of};
use crate::turns::TWO_PIECES;
use crate::worked::{CLIENT, QUESTION, REPLY, SECOND, forwarder};
use lru::DefaultHasher;
use network_model::{Forwarder, ScriptWire, Served, serve};
use refusing_allocator::Refusing;
use std::alloc::{AllocError, Global};
use std::mem::forget;
use std::test::Fail;

/// The second server answers the question.
const BY_SECOND: [Turn; 2] = [
    (1000, Comes::Question(CLIENT, &QUESTION)),
    (1020, Comes::Reply(1032, SECOND, REPLY)),
];

/// The first call is the question's arrival, the second the ask. A refused ask is no refused put:
/// the ask's path has failed.
#[test]
fn after_a_refused_ask_the_next_server_is_asked(rt: HostRuntime) -> Result<(), Fail> {
    let run = Run {
        script: &BY_SECOND,
        refuse: &[1],
        has_second: true,
        turns: 3,
    };
    let ran = ran_anew(rt.alloc(), &run)?;
    assert_eq!(rt; ran.served, counted(3, 0));
    assert_eq!(rt; ran.faults, 1);
    assert_eq!(rt; ran.puts, Puts::AnsweredBySecond);
    Ok(())
}

/// The question; and when the query's time is over, a piece of a stream.
const THEN_A_PIECE: [Turn; 2] = [
    (1000, Comes::Question(CLIENT, &QUESTION)),
    (2500, Comes::Piece(1, b"")),
];

/// The turn of the refused piece has its ticks: the query is given up, and the second server asked.
#[test]
fn a_turn_with_a_refused_arrival_has_its_ticks(rt: HostRuntime) -> Result<(), Fail> {
    let run = Run {
        script: &THEN_A_PIECE,
        refuse: &[2],
        has_second: true,
        turns: 2,
    };
    let ran = ran_anew(rt.alloc(), &run)?;
    let served = Served {
        refused_arrivals: 1,
        ..counted(2, 0)
    };
    assert_eq!(rt; ran.served, served);
    assert_eq!(rt; ran.puts, Puts::AskedAgain);
    Ok(())
}

/// The question, and nothing else.
const QUESTION_ALONE: [Turn; 1] = [(1000, Comes::Question(CLIENT, &QUESTION))];

/// A refused ask is no refused put. The refused puts are the four closes and the reply.
#[test]
fn every_put_is_refused(rt: HostRuntime) -> Result<(), Fail> {
    let run = Run {
        script: &QUESTION_ALONE,
        refuse: &[1, 2, 3, 4, 5, 6, 7, 8, 9],
        has_second: true,
        turns: 1,
    };
    let ran = ran_anew(rt.alloc(), &run)?;
    assert_eq!(rt; ran.served, counted(1, 5));
    assert_eq!(rt; ran.puts, Puts::Refused);
    assert_eq!(rt; ran.unsent, (9, 4), "all, and the asks");
    Ok(())
}

type Heap<'a> = &'a Refusing<Global>;

/// The memory of a forwarder, of its wire, and of the readers of pieces. The limited one of the
/// three grants a number of allocations, and then none.
#[derive(Clone, Copy)]
struct Memory<'a> {
    forwarder: Heap<'a>,
    wire: Heap<'a>,
    readers: Heap<'a>,
    short: Heap<'a>,
    granted: u64,
}

/// Serves `turns` turns with this memory. Returns the counts and the puts; `None` if the call ended
/// for lack of memory.
fn served_by<'a>(
    memory: Memory<'a>,
    wire: &mut ScriptWire<Heap<'a>>,
    forwarder: &mut Forwarder<DefaultHasher, Heap<'a>>,
    turns: u64,
) -> Option<(Served, Puts)> {
    memory.short.allow(memory.granted);
    let served = serve(memory.readers, wire, forwarder, turns);
    memory.short.allow(u64::MAX);
    match served {
        Ok(served) => Some((served, puts_of(wire.puts()))),
        Err(_) => None,
    }
}

/// Serves all turns of this script with this memory, over a wire with these turns. Returns the
/// result of [`served_by`]. The wire is forgotten.
fn served_over<'a>(
    memory: Memory<'a>,
    script: &[Turn],
    forwarder: &mut Forwarder<DefaultHasher, Heap<'a>>,
) -> Result<Option<(Served, Puts)>, AllocError> {
    let mut wire = wire_of(memory.wire, script, &[])?;
    let served = served_by(memory, &mut wire, forwarder, script.len() as u64);
    forget(wire);
    Ok(served)
}

/// Serves all turns of this script with this memory and a new forwarder. The forwarder is
/// forgotten, too.
fn served_with(memory: Memory<'_>, script: &[Turn]) -> Result<Option<(Served, Puts)>, AllocError> {
    let mut forwarder = forwarder(memory.forwarder)?;
    let served = served_over(memory, script, &mut forwarder);
    forget(forwarder);
    served
}

/// The fewest allocations for the readers of pieces with which the call does not end for lack of
/// memory, and the puts then. The question comes in two pieces.
fn first_granted(alloc: Global) -> Result<Option<(u64, Puts)>, AllocError> {
    let ample = Refusing::new(alloc);
    let heap = Refusing::new(alloc);
    for granted in 0..64 {
        let memory = Memory {
            forwarder: &ample,
            wire: &ample,
            readers: &heap,
            short: &heap,
            granted,
        };
        if let Some((_, puts)) = served_with(memory, &TWO_PIECES)? {
            return Ok(Some((granted, puts)));
        }
    }
    Ok(None)
}

#[test]
fn a_reader_without_memory_ends_the_call(rt: HostRuntime) -> Result<(), Fail> {
    let (granted, puts) = first_granted(rt.alloc())?.ok_or("a call that does not end")?;
    assert_eq!(rt; granted, 4);
    assert_eq!(rt; puts, Puts::Asked);
    Ok(())
}

/// The counts and puts without memory for the forwarder, and without memory for the wire.
fn served_without(alloc: Global) -> Result<[Option<(Served, Puts)>; 2], AllocError> {
    let ample = Refusing::new(alloc);
    let heap = Refusing::new(alloc);
    let of_wire = Memory {
        forwarder: &ample,
        wire: &heap,
        readers: &ample,
        short: &heap,
        granted: 0,
    };
    let of_forwarder = Memory {
        forwarder: &heap,
        wire: &ample,
        readers: &heap,
        ..of_wire
    };
    let lost = served_with(of_forwarder, &QUESTION_ALONE)?;
    let refused = served_with(of_wire, &QUESTION_ALONE)?;
    Ok([lost, refused])
}

/// A forwarder without memory loses the event, a wire without memory refuses the arrival.
#[test]
fn without_memory_an_event_is_lost(rt: HostRuntime) -> Result<(), Fail> {
    let [lost, refused] = served_without(rt.alloc())?;
    let event_lost = Served {
        lost: 1,
        ..counted(1, 0)
    };
    let arrival_refused = Served {
        refused_arrivals: 1,
        ..counted(1, 0)
    };
    assert_eq!(rt; lost, Some((event_lost, Puts::Nothing)));
    assert_eq!(rt; refused, Some((arrival_refused, Puts::Nothing)));
    Ok(())
}
