//! Refused allocations.

use crate::samples::{
    ADDRESS, ALIAS, Case, Kind, NAME_ERROR, TO_LAN, answer, asked, growths_beside_room,
};
use answer_builder::{Fault, Transport, failure, put_failure};
use dns_message::MessageRef;
use refusing_allocator::Refusing;
use std::alloc::Global;
use std::test::Fail;

/// The number of allocations, refused in turn, of the answer from a reply to its own question.
fn refusals(
    table_heap: Global,
    kind: Kind,
    reply: &str,
    transport: Transport,
) -> Result<u64, Fail> {
    let heap = Refusing::new(table_heap);
    let octets = hex::decode(table_heap, reply)?;
    let case = Case {
        kind,
        question: &octets,
        reply: &octets,
    };
    let mut refused = 0u64;
    for growths in 0..100u64 {
        match answer(table_heap, &heap, case, transport, growths)? {
            Ok(_) => return Ok(refused),
            Err(Fault::Memory) => refused = refused.saturating_add(1),
            Err(Fault::TooLarge) => return Err(Fail::from("too large")),
        }
    }
    Err(Fail::from("no answer"))
}

/// The numbers of an answer's refused allocations over UDP and over TCP.
fn refusals_of(table_heap: Global, kind: Kind, reply: &str) -> Result<(u64, u64), Fail> {
    let udp = refusals(table_heap, kind, reply, Transport::Udp)?;
    let tcp = refusals(table_heap, kind, reply, Transport::Tcp)?;
    Ok((udp, tcp))
}

#[test]
fn each_growth_of_an_answer_is_refused(rt: HostRuntime) -> Result<(), Fail> {
    assert_eq!(rt; refusals_of(rt.alloc(), Kind::Left(0), ALIAS)?, (3, 3));
    Ok(())
}

#[test]
fn each_growth_of_a_stale_answer_is_refused(rt: HostRuntime) -> Result<(), Fail> {
    assert_eq!(rt; refusals_of(rt.alloc(), Kind::Stale(1), ALIAS)?, (3, 3));
    Ok(())
}

#[test]
fn each_growth_of_a_denial_by_a_route_is_refused(rt: HostRuntime) -> Result<(), Fail> {
    assert_eq!(rt; refusals_of(rt.alloc(), Kind::Local, TO_LAN)?, (3, 3));
    Ok(())
}

#[test]
fn each_growth_of_a_failure_is_refused(rt: HostRuntime) -> Result<(), Fail> {
    let heap = Refusing::new(rt.alloc());
    let octets = hex::decode(rt.alloc(), ALIAS)?;
    let asked = asked(0x1234, MessageRef::view(&octets)?.question(&heap)?);
    let mut refused = 0u64;
    for growths in 0..100u64 {
        heap.allow(growths);
        if failure(&heap, &asked, 2).is_ok() {
            break;
        }
        refused = refused.saturating_add(1);
    }
    assert_eq!(rt; refused, 1);
    Ok(())
}

#[test]
fn a_vector_with_room_is_not_made_larger(rt: HostRuntime) -> Result<(), Fail> {
    for (reply, growths) in [(ADDRESS, 0u64), (NAME_ERROR, 0), (ALIAS, 1)] {
        let octets = hex::decode(rt.alloc(), reply)?;
        assert_eq!(rt;
            growths_beside_room(rt.alloc(), &octets)?,
            Some(growths),
            "of {reply}"
        );
    }
    Ok(())
}

#[test]
fn a_failure_takes_no_memory_beside_its_room(rt: HostRuntime) -> Result<(), Fail> {
    let heap = Refusing::new(rt.alloc());
    let octets = hex::decode(rt.alloc(), ALIAS)?;
    let asked = asked(0x1234, MessageRef::view(&octets)?.question(&heap)?);
    let mut room = Vec::with_capacity(&heap, 271)?;
    heap.allow(0);
    assert!(rt; put_failure(&heap, &mut room, asked.borrowed(), 2).is_ok());
    Ok(())
}
