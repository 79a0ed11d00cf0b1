//! Turns over a wire without refusals.

use crate::puts::{Puts, puts_of};
use crate::scripts::{
    Comes, FIRST, Ran, Run, Turn, counted, ran_anew, script_turns_of, serve_anew, wire_of,
};
use network_model::ScriptWire;
use refusing_allocator::Refusing;
use std::alloc::{AllocError, Global};
use std::mem::forget;
use std::test::Fail;

#[test]
fn a_question_is_asked_and_answered(rt: HostRuntime) -> Result<(), Fail> {
    let run = Run {
        script: &FIRST,
        refuse: &[],
        has_second: false,
        turns: 3,
    };
    let ran = ran_anew(rt.alloc(), &run)?;
    assert_eq!(rt; ran.served, counted(3, 0));
    assert_eq!(rt; ran.faults, 0);
    assert_eq!(rt; ran.puts, Puts::Answered);
    Ok(())
}

/// The question comes over a client's connection in two pieces, a piece in each turn.
pub(crate) const TWO_PIECES: [Turn; 2] = [
    (1000, Comes::Piece(3, b"\x00\x1b\x12")),
    (1020, Comes::Piece(3, REST)),
];

/// The question without the first octet.
const REST: &[u8] =
    b"\x34\x01\x00\x00\x01\x00\x00\x00\x00\x00\x00\x01a\x07example\x00\x00\x01\x00\x01";

/// The result of `turns` turns, with the question in two pieces.
fn ran_in_pieces(alloc: Global, turns: u64) -> Result<Ran, AllocError> {
    let run = Run {
        script: &TWO_PIECES,
        refuse: &[],
        has_second: false,
        turns,
    };
    ran_anew(alloc, &run)
}

/// The second turn asks the question. A call of a single turn over an equal wire puts nothing.
#[test]
fn a_frame_in_two_pieces_is_one_question(rt: HostRuntime) -> Result<(), Fail> {
    let second = ran_in_pieces(rt.alloc(), 2)?;
    let first = ran_in_pieces(rt.alloc(), 1)?;
    assert_eq!(rt; (second.served, second.puts), (counted(2, 0), Puts::Asked));
    assert_eq!(rt; (first.served, first.puts), (counted(1, 0), Puts::Nothing));
    Ok(())
}

type Heap<'a> = &'a Refusing<Global>;

/// The puts on the wire, and whether a single allowed allocation is left.
fn seen<'a>(heap: Heap<'a>, wire: &ScriptWire<Heap<'a>>) -> (Puts, bool) {
    let puts = puts_of(wire.puts());
    (puts, Box::new(heap, 0u8).is_ok())
}

/// The puts on a wire made of existing turns, and whether a single allowed allocation is left. The
/// wire is forgotten.
fn seen_of_new(alloc: Global) -> Result<(Puts, bool), AllocError> {
    let heap = Refusing::new(alloc);
    let refuse = Vec::from_slice(&heap, &[1u64])?;
    let script_turns = script_turns_of(&heap, &FIRST)?;
    heap.allow(1);
    let wire = ScriptWire::new(&heap, script_turns, refuse);
    let seen = seen(&heap, &wire);
    forget(wire);
    Ok(seen)
}

/// The puts on this wire after serving, and whether a single allocation allowed from then on is
/// left.
fn seen_served<'a>(
    heap: Heap<'a>,
    wire: &mut ScriptWire<Heap<'a>>,
) -> Result<(Puts, bool), AllocError> {
    serve_anew(heap, wire, false, 2)?;
    heap.allow(1);
    Ok(seen(heap, wire))
}

/// The result of [`seen_served`] for a wire with the question in two pieces.
fn seen_of_served(alloc: Global) -> Result<(Puts, bool), AllocError> {
    let heap = Refusing::new(alloc);
    let mut wire = wire_of(&heap, &TWO_PIECES, &[])?;
    let seen = seen_served(&heap, &mut wire);
    forget(wire);
    seen
}

#[test]
fn a_wire_is_made_and_seen_without_memory(rt: HostRuntime) -> Result<(), Fail> {
    assert_eq!(rt; seen_of_new(rt.alloc())?, (Puts::Nothing, true));
    assert_eq!(rt; seen_of_served(rt.alloc())?, (Puts::Asked, true));
    Ok(())
}
