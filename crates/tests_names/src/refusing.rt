//! Allocations granted and refused by an allocator for tests.

use refusing_allocator::Refusing;
use std::alloc::{AllocError, Global};
use std::test::Fail;

/// Asks for three blocks of an octet, and returns the number granted.
fn blocks(heap: &Refusing<Global>) -> u8 {
    let first = Box::new(heap, 1u8);
    let second = Box::new(heap, 2u8);
    let third = Box::new(heap, 3u8);
    u8::from(first.is_ok()) + u8::from(second.is_ok()) + u8::from(third.is_ok())
}

#[test]
fn each_growth_after_the_count_is_refused(rt: HostRuntime) {
    let heap = Refusing::new(rt.alloc());
    assert_eq!(rt; blocks(&heap), 3, "ample from the start");
    for (count, granted) in [(0, 0), (1, 1), (2, 2), (3, 3), (u64::MAX, 3)] {
        heap.allow(count);
        assert_eq!(rt; blocks(&heap), granted, "of three, with {count} allowed");
        assert_eq!(rt;
            Box::new(&heap, 4u8).is_ok(),
            count == u64::MAX,
            "a fourth, with {count} allowed"
        );
    }
    heap.allow(4);
    assert_eq!(rt; blocks(&heap), 3, "three of four");
    assert_eq!(rt; blocks(&heap), 1, "one of four is left");
    heap.allow(u64::MAX);
    for _again in 0..100u8 {
        assert_eq!(rt; blocks(&heap), 3, "ample again");
    }
}

#[test]
fn one_growth_alone_is_refused(rt: HostRuntime) {
    let heap = Refusing::new(rt.alloc());
    for (count, granted) in [(0, 2), (1, 2), (2, 2), (3, 3), (u64::MAX, 3)] {
        heap.refuse_one(count);
        assert_eq!(rt;
            blocks(&heap),
            granted,
            "of three, with one refused after {count}"
        );
        assert_eq!(rt;
            Box::new(&heap, 4u8).is_ok(),
            count != 3,
            "a fourth, with one refused after {count}"
        );
        assert_eq!(rt; blocks(&heap), 3, "ample after the refused one");
    }
    heap.allow(0);
    assert_eq!(rt; blocks(&heap), 0, "none again");
}

/// Whether a block of `octets` octets is granted.
fn is_granted(heap: &Refusing<Global>, octets: usize) -> bool {
    let block = Vec::<u8, &Refusing<Global>>::with_capacity(heap, octets);
    block.is_ok()
}

#[test]
fn each_large_growth_is_refused(rt: HostRuntime) {
    let heap = Refusing::new(rt.alloc());
    assert!(rt; is_granted(&heap, 65_536), "any from the start");
    heap.refuse_above(100);
    for (octets, granted) in [(1, true), (100, true), (101, false), (65_536, false)] {
        assert_eq!(rt; is_granted(&heap, octets), granted, "{octets} octets");
    }
    heap.allow(1);
    assert!(rt; !is_granted(&heap, 101));
    assert!(rt; is_granted(&heap, 100), "a large one is not counted");
    assert!(rt; !is_granted(&heap, 100), "one was granted");
    heap.allow(u64::MAX);
    assert!(rt; !is_granted(&heap, 101), "for its size still");
    heap.refuse_above(usize::MAX);
    assert!(rt; is_granted(&heap, 65_536), "any again");
}

/// A list of octets after pushes with allocations refused.
#[derive(Clone, Copy)]
struct Held {
    /// The capacity, the number of octets and the number of refused pushes.
    room: usize,
    len: usize,
    refused: u8,
    /// A further octet is pushed, with an allocation granted.
    is_pushed: bool,
    first: Option<u8>,
}

/// Pushes an octet, then octets with allocations refused, then an octet with an allocation granted.
fn held_in<'a>(
    heap: &'a Refusing<Global>,
    octets: &mut Vec<u8, &'a Refusing<Global>>,
) -> Result<Held, AllocError> {
    octets.push(7)?;
    let room = octets.capacity();
    heap.allow(0);
    let mut refused = 0u8;
    for octet in 0..100u8 {
        if octets.push(octet).is_err() {
            refused = refused.saturating_add(1);
        }
    }
    let len = octets.len();
    heap.allow(1);
    let is_pushed = octets.push(8).is_ok();
    Ok(Held {
        room,
        len,
        refused,
        is_pushed,
        first: octets.first().copied(),
    })
}

/// The result of [`held_in`] for a new list.
fn held_in_new(alloc: Global) -> Result<Held, AllocError> {
    let heap = Refusing::new(alloc);
    let mut octets = Vec::new(&heap);
    held_in(&heap, &mut octets)
}

#[test]
fn what_was_held_outlives_a_refusal(rt: HostRuntime) -> Result<(), Fail> {
    let held = held_in_new(rt.alloc())?;
    assert_eq!(rt; held.len, held.room, "what had room was taken");
    assert!(rt; held.refused > 0);
    assert!(rt; held.is_pushed, "one growth is one call");
    assert_eq!(rt; held.first, Some(7));
    Ok(())
}
