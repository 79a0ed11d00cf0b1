//! Events, actions and step inputs are copied whole, and each refused allocation is reported.

use plain_values::PlainList;
use refusing_allocator::Refusing;
use std::alloc::{AllocError, Allocator, Global};
use std::test::Fail;
use step_values::{Action, Actions, Client, Event, Path, StepInput, Why};
use suffix_routes::Peer;

type Heap<'a> = &'a Refusing<Global>;

const PEER: Peer = Peer {
    ip: [192, 0, 2, 1],
    port: 53,
};

const OCTETS: &[u8] = b"\x00\x08";

/// The numbers of `event`'s events, and whether each has octets.
const EVENTS: [(u8, bool); 8] = [
    (0, true),
    (1, true),
    (2, true),
    (3, true),
    (4, false),
    (5, false),
    (6, false),
    (7, false),
];

/// The numbers of `action`'s actions, and whether each has octets.
const ACTIONS: [(u8, bool); 6] = [
    (0, true),
    (1, true),
    (2, false),
    (3, false),
    (4, true),
    (5, true),
];

/// The event with this number: an event of each kind, by UDP and over TCP.
fn event<A: Allocator + Copy>(alloc: A, place: u8) -> Result<Event<A>, AllocError> {
    match place {
        0 => client_event(alloc, Client::Udp(PEER)),
        1 => client_event(alloc, Client::Tcp(7)),
        2 => delivery(alloc, Path::Udp(1032)),
        3 => delivery(alloc, Path::Tcp(7)),
        4 => Ok(Event::PathFailed {
            path: Path::Udp(1032),
        }),
        5 => Ok(Event::PathFailed { path: Path::Tcp(7) }),
        6 => Ok(Event::Tick),
        _ => Ok(Event::Restart),
    }
}

fn client_event<A: Allocator>(alloc: A, client: Client) -> Result<Event<A>, AllocError> {
    Ok(Event::Client {
        client,
        bytes: PlainList::copied(alloc, OCTETS)?,
    })
}

fn delivery<A: Allocator>(alloc: A, path: Path) -> Result<Event<A>, AllocError> {
    Ok(Event::Delivery {
        path,
        from: PEER,
        bytes: PlainList::copied(alloc, OCTETS)?,
    })
}

/// The action with this number: an action of each kind, a reply by UDP and over TCP.
fn action<A: Allocator + Copy>(alloc: A, place: u8) -> Result<Action<A>, AllocError> {
    match place {
        0 => Ok(Action::AskUdp {
            port: 1032,
            server: PEER,
            bytes: PlainList::copied(alloc, OCTETS)?,
        }),
        1 => Ok(Action::AskTcp {
            conn: 7,
            server: PEER,
            bytes: PlainList::copied(alloc, OCTETS)?,
        }),
        2 => Ok(Action::CloseUdp { port: 1032 }),
        3 => Ok(Action::CloseTcp { conn: 7 }),
        4 => reply(alloc, Client::Udp(PEER), Why::Answered),
        _ => reply(alloc, Client::Tcp(7), Why::NoRoute),
    }
}

fn reply<A: Allocator>(alloc: A, client: Client, why: Why) -> Result<Action<A>, AllocError> {
    Ok(Action::Reply {
        client,
        bytes: PlainList::copied(alloc, OCTETS)?,
        why,
    })
}

/// Whether two events are equal.
fn is_equal_event<A: Allocator>(one: &Event<A>, other: &Event<A>) -> bool {
    match (one, other) {
        (
            Event::Client { client, bytes },
            Event::Client {
                client: asker,
                bytes: octets,
            },
        ) => *client == *asker && bytes.as_slice() == octets.as_slice(),
        (
            Event::Delivery { path, from, bytes },
            Event::Delivery {
                path: way,
                from: server,
                bytes: octets,
            },
        ) => *path == *way && *from == *server && bytes.as_slice() == octets.as_slice(),
        (Event::PathFailed { path }, Event::PathFailed { path: way }) => *path == *way,
        (Event::Tick, Event::Tick) | (Event::Restart, Event::Restart) => true,
        _ => false,
    }
}

/// Whether two actions are equal.
fn is_equal_action<A: Allocator>(one: &Action<A>, other: &Action<A>) -> bool {
    match (one, other) {
        (
            Action::AskUdp {
                port,
                server,
                bytes,
            },
            Action::AskUdp {
                port: from,
                server: to,
                bytes: octets,
            },
        ) => *port == *from && *server == *to && bytes.as_slice() == octets.as_slice(),
        (
            Action::AskTcp {
                conn,
                server,
                bytes,
            },
            Action::AskTcp {
                conn: from,
                server: to,
                bytes: octets,
            },
        ) => *conn == *from && *server == *to && bytes.as_slice() == octets.as_slice(),
        (Action::CloseUdp { port }, Action::CloseUdp { port: from }) => *port == *from,
        (Action::CloseTcp { conn }, Action::CloseTcp { conn: from }) => *conn == *from,
        (
            Action::Reply { client, bytes, why },
            Action::Reply {
                client: asker,
                bytes: octets,
                why: cause,
            },
        ) => *client == *asker && *why == *cause && bytes.as_slice() == octets.as_slice(),
        _ => false,
    }
}

/// Refuses the next allocation, alone or with all later allocations.
fn refuse(heap: &Refusing<Global>, is_alone: bool) {
    if is_alone {
        heap.refuse_one(0);
    } else {
        heap.allow(0);
    }
}

/// Whether the event's copy is equal, and is refused without memory if the event has octets.
fn is_event_copied<'a>(
    heap: Heap<'a>,
    event: &Event<Heap<'a>>,
    has_octets: bool,
    is_alone: bool,
) -> Result<bool, AllocError> {
    refuse(heap, is_alone);
    let is_refused = event.copy(heap).is_err();
    heap.allow(u64::from(has_octets));
    let copy = event.copy(heap)?;
    Ok(is_refused == has_octets && is_equal_event(event, &copy))
}

/// Whether the action's copy is equal, and is refused without memory if the action has octets.
fn is_action_copied<'a>(
    heap: Heap<'a>,
    action: &Action<Heap<'a>>,
    has_octets: bool,
    is_alone: bool,
) -> Result<bool, AllocError> {
    refuse(heap, is_alone);
    let is_refused = action.copy(heap).is_err();
    heap.allow(u64::from(has_octets));
    let copy = action.copy(heap)?;
    Ok(is_refused == has_octets && is_equal_action(action, &copy))
}

/// The kind of the copied value.
#[derive(Clone, Copy)]
enum Kind {
    Event,
    Action,
}

/// Whether the numbered value is copied right, with a single allocation refused and with all.
fn is_copied(
    heap: Heap<'_>,
    kind: Kind,
    row: (u8, bool),
    is_alone: bool,
) -> Result<bool, AllocError> {
    let (place, has_octets) = row;
    heap.allow(u64::MAX);
    match kind {
        Kind::Event => {
            let event = event(heap, place)?;
            is_event_copied(heap, &event, has_octets, is_alone)
        }
        Kind::Action => {
            let action = action(heap, place)?;
            is_action_copied(heap, &action, has_octets, is_alone)
        }
    }
}

/// The first number not copied right, if any.
fn first_uncopied(
    alloc: Global,
    kind: Kind,
    rows: &[(u8, bool)],
    is_alone: bool,
) -> Result<Option<u8>, AllocError> {
    let heap = Refusing::new(alloc);
    for row in rows {
        if !is_copied(&heap, kind, *row, is_alone)? {
            return Ok(Some(row.0));
        }
    }
    Ok(None)
}

#[test]
fn copies_of_events_are_equal(rt: HostRuntime) -> Result<(), Fail> {
    assert_eq!(rt;
        first_uncopied(rt.alloc(), Kind::Event, &EVENTS, false)?,
        None
    );
    assert_eq!(rt;
        first_uncopied(rt.alloc(), Kind::Event, &EVENTS, true)?,
        None
    );
    Ok(())
}

#[test]
fn copies_of_actions_are_equal(rt: HostRuntime) -> Result<(), Fail> {
    assert_eq!(rt;
        first_uncopied(rt.alloc(), Kind::Action, &ACTIONS, false)?,
        None
    );
    assert_eq!(rt;
        first_uncopied(rt.alloc(), Kind::Action, &ACTIONS, true)?,
        None
    );
    Ok(())
}

/// Whether copying this input reports a refused allocation, and whether the copy is whole.
fn is_input_copied<'a>(
    heap: Heap<'a>,
    input: &StepInput<Heap<'a>>,
) -> Result<(bool, bool), AllocError> {
    heap.allow(0);
    let is_refused = input.copy(heap).is_err();
    heap.allow(1);
    let copy = input.copy(heap)?;
    let is_equal = copy.now == 1020 && copy.words == [7; 8];
    Ok((
        is_refused,
        is_equal && is_equal_event(&input.event, &copy.event),
    ))
}

/// Whether copying an input with a delivery reports a refused allocation, and whether the copy is
/// whole.
fn is_delivery_copied(alloc: Global) -> Result<(bool, bool), AllocError> {
    let heap = Refusing::new(alloc);
    let input = StepInput {
        now: 1020,
        words: [7; 8],
        event: event(&heap, 2)?,
    };
    is_input_copied(&heap, &input)
}

#[test]
fn copies_of_inputs_are_equal(rt: HostRuntime) -> Result<(), Fail> {
    assert_eq!(rt; is_delivery_copied(rt.alloc())?, (true, true));
    Ok(())
}

/// Whether the list has a single action, closing this path.
fn closes_alone<A: Allocator + Copy>(actions: &Actions<A>, path: Path) -> bool {
    actions.len() == 1 && closes(actions.get(0), path) && actions.get(1).is_none()
}

/// Whether the action closes this path.
fn closes<A: Allocator>(action: Option<&Action<A>>, path: Path) -> bool {
    match action {
        Some(Action::CloseUdp { port }) => path == Path::Udp(*port),
        Some(Action::CloseTcp { conn }) => path == Path::Tcp(*conn),
        _ => false,
    }
}

/// Whether a list of a single action is made without an allocation.
fn is_only(heap: Heap<'_>) -> bool {
    heap.allow(0);
    let only = Actions::one(heap, Action::CloseTcp { conn: 7 });
    closes_alone(&only, Path::Tcp(7))
}

/// Whether this empty list takes a first action without an allocation, and a refused allocation for
/// the second changes nothing. Then whether both are listed in order.
fn are_listed<'a>(
    heap: Heap<'a>,
    actions: &mut Actions<Heap<'a>>,
) -> Result<(bool, bool), AllocError> {
    heap.allow(0);
    let is_empty = actions.is_empty() && actions.get(0).is_none();
    actions.push(Action::CloseUdp { port: 1032 })?;
    let is_refused = actions.push(Action::CloseTcp { conn: 7 }).is_err();
    let is_left = closes_alone(actions, Path::Udp(1032));
    heap.allow(1);
    actions.push(Action::CloseTcp { conn: 7 })?;
    let are_both = actions.len() == 2
        && closes(actions.get(0), Path::Udp(1032))
        && closes(actions.get(1), Path::Tcp(7))
        && actions.get(2).is_none();
    Ok((is_empty && is_refused && is_left, are_both))
}

/// The results of [`is_only`] and [`are_listed`].
fn lists(alloc: Global) -> Result<(bool, bool, bool), AllocError> {
    let heap = Refusing::new(alloc);
    let mut actions = Actions::new(&heap);
    let (is_first_kept, are_both) = are_listed(&heap, &mut actions)?;
    Ok((is_only(&heap), is_first_kept, are_both))
}

#[test]
fn actions_are_listed_in_order(rt: HostRuntime) -> Result<(), Fail> {
    assert_eq!(rt; lists(rt.alloc())?, (true, true, true));
    Ok(())
}
