//! A wire without a reported event: each turn waits, a reply leaves at once, and no memory of the
//! reply is kept. Ports 15398 to 15400 have to be free. A wire is forgotten, as in `sockets`.

use crate::came::{Came, came_now, client_that_sends, reply_to, settle};
use crate::system::{System, client_that_came, expected, local};
use crate::watched::AGES;
use linked_list_allocator::LocalHeap;
use network_model::Wire;
use plain_values::PlainList;
use socket_wire::MioWire;
use std::io::Read;
use std::mem::forget;
use std::rt::Clock;
use std::test::Fail;
use std::time::Duration;
use step_values::{Action, Client, Why};
use suffix_routes::Limits;

/// The number of turns, and the ms of each by the wire's clock: every second turn sweeps.
const IDLE_TURNS: u32 = 20;

const PASSING: u64 = 3;

/// The least time, in ms, of these turns by this machine's clock. Each turn waits for 5.
const LEAST: u64 = 90;

/// The time of idle turns by this machine's clock.
fn time_of_idle_turns(
    system: &System<'_>,
    wire: &mut MioWire<'_, System<'_>>,
) -> Result<Duration, Fail> {
    let before = system.host.monotonic()?;
    for _ in 0..IDLE_TURNS {
        system.pass(Duration::from_millis(PASSING));
        expected(came_now(wire) == Came::Nothing, "something came")?;
    }
    Ok(system.host.monotonic()?.saturating_sub(before))
}

/// The number of ages, before the first failure, at which each idle turn waits.
fn ages_that_wait(system: &System<'_>, wire: &mut MioWire<'_, System<'_>>) -> Result<usize, Fail> {
    for (place, age) in AGES.iter().enumerate() {
        system.time.set(Duration::from_millis(*age));
        settle(wire);
        if time_of_idle_turns(system, wire)? < Duration::from_millis(LEAST) {
            return Ok(place);
        }
    }
    Ok(AGES.len())
}

#[test]
fn an_idle_turn_waits(rt: HostRuntime) -> Result<(), Fail> {
    let system = System::new(&rt);
    system.time.set(Duration::ZERO);
    let mut wire = MioWire::new(&system, rt.alloc(), local(15398), &Limits::defaults())?;
    let ages = ages_that_wait(&system, &mut wire);
    forget(wire);
    assert_eq!(rt; ages?, AGES.len());
    Ok(())
}

/// The octets of replies to a client, each taken whole by the client's system.
const REPLIES: [usize; 4] = [12, 1_501, 6_000, 30_000];

/// The number of these replies, before the first failure, that a new client gets right after the
/// put.
fn replies_that_left(
    system: &System<'_>,
    wire: &mut MioWire<'_, System<'_>>,
) -> Result<usize, Fail> {
    let mut client = client_that_sends(system, 15400, b"\x00")?;
    expected(client_that_came(wire) == Some(0), "no client came")?;
    settle(wire);
    let mut room = Vec::from_elem(system.host.alloc(), 0u8, 40_000)?;
    for (place, count) in REPLIES.iter().enumerate() {
        let reply = reply_to(system.host.alloc(), 0, *count)?;
        expected(wire.put(&reply).is_ok(), "a reply that was refused")?;
        let framed = count.saturating_add(2);
        if client.read(&mut room).unwrap_or(0) != framed {
            return Ok(place);
        }
    }
    Ok(REPLIES.len())
}

#[test]
fn a_reply_leaves_at_once(rt: HostRuntime) -> Result<(), Fail> {
    let system = System::new(&rt);
    let mut wire = MioWire::new(&system, rt.alloc(), local(15400), &Limits::defaults())?;
    let left = replies_that_left(&system, &mut wire);
    forget(wire);
    assert_eq!(rt; left?, REPLIES.len());
    Ok(())
}

/// The octets of the wire's memory.
const MEMORY: usize = 1 << 20;

/// The octets of a reply.
const OCTETS: usize = 1_000;

/// A heap that counts the octets in use.
type Heap<'a> = &'a LocalHeap;

/// The octets in use in this heap before a reply to a new client, and afterwards. The client's
/// system takes the reply whole.
fn used_around_a_reply<'a>(
    system: &System<'_>,
    heap: Heap<'a>,
    wire: &mut MioWire<'_, System<'_>, Heap<'a>>,
) -> Result<[usize; 2], Fail> {
    let _client = client_that_sends(system, 15399, b"\x00")?;
    expected(client_that_came(wire) == Some(0), "no client came")?;
    let reply = Action::Reply {
        client: Client::Tcp(0),
        bytes: PlainList::from_vec(Vec::from_elem(heap, 0u8, OCTETS)?),
        why: Why::Answered,
    };
    let before = heap.used();
    expected(wire.put(&reply).is_ok(), "a reply that was refused")?;
    Ok([before, heap.used()])
}

/// The result of [`used_around_a_reply`] over a new wire with this heap. The wire is forgotten.
fn used_anew(rt: &HostRuntime, heap: &LocalHeap) -> Result<[usize; 2], Fail> {
    let system = System::new(rt);
    let mut wire = MioWire::new(&system, heap, local(15399), &Limits::defaults())?;
    let used = used_around_a_reply(&system, heap, &mut wire);
    forget(wire);
    used
}

#[test]
fn a_client_keeps_no_memory_of_what_it_took(rt: HostRuntime) -> Result<(), Fail> {
    let heap = LocalHeap::new(rt.alloc(), MEMORY)?;
    let [before, after] = used_anew(&rt, &heap)?;
    assert!(rt; before > OCTETS);
    assert_eq!(rt; after, before);
    Ok(())
}
