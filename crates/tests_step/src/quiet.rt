//! An event without consequences does not allocate: of one allowed allocation, one is left after
//! the step. So a body that copies a stranger's octets fails here, even if the body ignores the
//! refusal.

use crate::worked::{PATH, REPLY, SECOND, SERVER, WORDS, ask, delivers, new, sends};
use lru::DefaultHasher;
use network_model::Forwarder;
use refusing_allocator::Refusing;
use std::alloc::{AllocError, Allocator, Global};
use std::mem::forget;
use std::test::Fail;
use step_values::{Event, Outcome, Path};
use suffix_routes::Peer;

/// Whether a single allowed allocation is left. Then allows all allocations.
fn is_left(heap: &Refusing<Global>) -> bool {
    let is_left = Box::new(heap, 0u8).is_ok();
    heap.allow(u64::MAX);
    is_left
}

/// Whether a step succeeded without an action.
fn is_empty<A: Allocator + Copy>(outcome: &Result<Outcome<A>, AllocError>) -> bool {
    match outcome {
        Ok(outcome) => outcome.actions.is_empty(),
        Err(_) => false,
    }
}

/// Whether this event's step has no action and does not allocate.
fn is_quiet<'a>(
    heap: &'a Refusing<Global>,
    forwarder: &mut Forwarder<DefaultHasher, &'a Refusing<Global>>,
    now: u64,
    event: &Event<&'a Refusing<Global>>,
) -> bool {
    heap.allow(1);
    let outcome = forwarder.step(now, WORDS, event);
    is_left(heap) && is_empty(&outcome)
}

/// An event with octets from the table.
#[derive(Clone, Copy)]
enum Row {
    Sends(&'static [u8]),
    Delivers(Path, Peer, &'static [u8]),
    Fails(Path),
    Tick,
    Restart,
}

/// The server's reply with another identifier.
const OTHER_IDENTIFIER: &[u8] =
    b"\x00\x09\x85\x00\x00\x01\x00\x01\x00\x00\x00\x00\x01a\x07example\x00\x00\x01\x00\x01\xc0\x0c\x00\x01\x00\x01\x00\x00\x01\x2c\x00\x04\xc6\x33\x64\x05";

/// The server's reply to a question of another type.
const OTHER_TYPE: &[u8] =
    b"\x00\x08\x85\x00\x00\x01\x00\x01\x00\x00\x00\x00\x01a\x07example\x00\x00\x1c\x00\x01\xc0\x0c\x00\x01\x00\x01\x00\x00\x01\x2c\x00\x04\xc6\x33\x64\x05";

const OTHER_PORT: Peer = Peer {
    ip: [192, 0, 2, 1],
    port: 5353,
};

/// The events after sending the query at 1000, each with a moment. The query may be answered for
/// 1,500 milliseconds. An earlier moment counts as the latest.
const ROWS: [(u64, Row); 16] = [
    (1001, Row::Sends(REPLY)),
    (
        1002,
        Row::Sends(b"\x12\x34\x01\x00\x00\x01\x00\x00\x00\x00\x00"),
    ),
    (1003, Row::Delivers(PATH, SERVER, OTHER_IDENTIFIER)),
    (1003, Row::Delivers(PATH, SERVER, OTHER_TYPE)),
    (1003, Row::Delivers(PATH, OTHER_PORT, REPLY)),
    (1003, Row::Delivers(PATH, SECOND, REPLY)),
    (1003, Row::Delivers(Path::Udp(1033), SERVER, REPLY)),
    (1004, Row::Fails(Path::Udp(1033))),
    (1004, Row::Fails(Path::Tcp(1032))),
    (2499, Row::Tick),
    (0, Row::Tick),
    (2500, Row::Delivers(PATH, SERVER, REPLY)),
    (2500, Row::Restart),
    (2500, Row::Delivers(PATH, SERVER, REPLY)),
    (2500, Row::Fails(PATH)),
    (9000, Row::Tick),
];

/// A row's event.
fn event<A: Allocator + Copy>(alloc: A, row: Row) -> Result<Event<A>, AllocError> {
    match row {
        Row::Sends(bytes) => sends(alloc, bytes),
        Row::Delivers(path, from, bytes) => delivers(alloc, path, from, bytes),
        Row::Fails(path) => Ok(Event::PathFailed { path }),
        Row::Tick => Ok(Event::Tick),
        Row::Restart => Ok(Event::Restart),
    }
}

/// Whether a row's step has no action and does not allocate.
fn is_quiet_row<'a>(
    heap: &'a Refusing<Global>,
    forwarder: &mut Forwarder<DefaultHasher, &'a Refusing<Global>>,
    now: u64,
    row: Row,
) -> Result<bool, AllocError> {
    let event = event(heap, row)?;
    Ok(is_quiet(heap, forwarder, now, &event))
}

/// Calls of a forwarder.
#[derive(Clone, Copy, PartialEq, Eq)]
enum Calls {
    /// After sending the query, the step of each row.
    Rows,
    /// After sending the query, a restart.
    Restart,
    /// A new forwarder's restart.
    RestartOfNew,
    /// After sending the query, a look at the next due moment.
    NextDue,
}

/// The result of these calls.
#[derive(Clone, Copy, PartialEq, Eq, Debug)]
enum Came {
    /// No call allocates, no step has an action, and this is the next due moment if asked for.
    Quiet(Option<u64>),
    /// The first call, from 0, that allocates or has an action.
    Loud(usize),
}

/// The result after a call that returned `due`.
fn came_if_left(heap: &Refusing<Global>, due: Option<u64>) -> Came {
    if is_left(heap) {
        Came::Quiet(due)
    } else {
        Came::Loud(0)
    }
}

/// The result of the rows.
fn came_of_rows<'a>(
    heap: &'a Refusing<Global>,
    forwarder: &mut Forwarder<DefaultHasher, &'a Refusing<Global>>,
) -> Result<Came, AllocError> {
    for (number, (now, row)) in ROWS.iter().enumerate() {
        if !is_quiet_row(heap, forwarder, *now, *row)? {
            return Ok(Came::Loud(number));
        }
    }
    Ok(Came::Quiet(None))
}

/// The result of these calls for this new forwarder.
fn came_of<'a>(
    heap: &'a Refusing<Global>,
    forwarder: &mut Forwarder<DefaultHasher, &'a Refusing<Global>>,
    calls: Calls,
) -> Result<Came, AllocError> {
    if calls != Calls::RestartOfNew {
        ask(heap, forwarder)?;
    }
    match calls {
        Calls::Rows => came_of_rows(heap, forwarder),
        Calls::Restart | Calls::RestartOfNew => {
            heap.allow(1);
            forwarder.restart();
            Ok(came_if_left(heap, None))
        }
        Calls::NextDue => {
            heap.allow(1);
            let due = forwarder.next_due();
            Ok(came_if_left(heap, due))
        }
    }
}

/// The result of these calls for a new forwarder. The forwarder is forgotten: dropping it would
/// need a proof here.
fn came_of_new(alloc: Global, calls: Calls) -> Result<Came, AllocError> {
    let heap = Refusing::new(alloc);
    let mut forwarder = new(&heap)?;
    let came = came_of(&heap, &mut forwarder, calls);
    forget(forwarder);
    came
}

#[test]
fn what_calls_for_nothing_takes_no_memory(rt: HostRuntime) -> Result<(), Fail> {
    assert_eq!(rt; came_of_new(rt.alloc(), Calls::Rows)?, Came::Quiet(None));
    Ok(())
}

#[test]
fn a_restart_by_its_call_takes_no_memory(rt: HostRuntime) -> Result<(), Fail> {
    assert_eq!(rt; came_of_new(rt.alloc(), Calls::Restart)?, Came::Quiet(None));
    Ok(())
}

#[test]
fn a_restart_of_a_new_forwarder_takes_no_memory(rt: HostRuntime) -> Result<(), Fail> {
    assert_eq!(rt;
        came_of_new(rt.alloc(), Calls::RestartOfNew)?,
        Came::Quiet(None)
    );
    Ok(())
}

/// The next due moment is 1,500 milliseconds after sending the query.
#[test]
fn what_is_due_next_takes_no_memory(rt: HostRuntime) -> Result<(), Fail> {
    assert_eq!(rt;
        came_of_new(rt.alloc(), Calls::NextDue)?,
        Came::Quiet(Some(2500))
    );
    Ok(())
}
