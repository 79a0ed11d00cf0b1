//! The octets of worked answers, the largest answer, and a fault's text.

use crate::samples::{ADDRESS, ALIAS, Case, Kind, TO_LAN, text};
use answer_builder::{Asked, Fault, Transport, failure};
use dns_message::MessageRef;
use refusing_allocator::Refusing;
use std::alloc::Global;
use std::test::Fail;

/// The reply with the TXT record of a.example, up to RDLENGTH.
const TEXT: &str = "0008850000010001000000000161076578616d706c650000100001c00c001000010000012c";

/// The reply with a text of `len` octets.
fn long_reply(heap: Global, len: u16) -> Result<Vec<u8>, Fail> {
    let mut reply = hex::decode(heap, TEXT)?;
    reply.push((len / 256) as u8)?;
    reply.push((len % 256) as u8)?;
    for _ in 0..len {
        reply.push(b'a')?;
    }
    Ok(reply)
}

/// a.example TXT, with a capital letter, so that the answer's owner is written in full.
const CAPITAL_QUESTION: &str = "1234010000010000000000000141076578616d706c650000100001";

/// The number of octets of each answer from a text of `len` octets; `None` if too large.
fn lengths_of(
    heap: Global,
    kind: Kind,
    question: &[u8],
    transport: Transport,
    lens: [u16; 2],
) -> Result<[Option<usize>; 2], Fail> {
    let mut lengths = [None; 2];
    for (length, len) in lengths.iter_mut().zip(lens) {
        let reply = long_reply(heap, len)?;
        let refusing = Refusing::new(heap);
        let case = Case {
            kind,
            question,
            reply: &reply,
        };
        *length = text(heap, &refusing, case, transport)?.map(|text| text.as_slice().len());
    }
    Ok(lengths)
}

/// The kinds of answers. No chain of aliases reaches the limit of TCP, so a text is used.
const KINDS: [Kind; 3] = [Kind::Left(0), Kind::Stale(0), Kind::Local];

#[test]
fn past_65535_octets_tcp_gets_nothing(rt: HostRuntime) -> Result<(), Fail> {
    let question = hex::decode(rt.alloc(), CAPITAL_QUESTION)?;
    for kind in KINDS {
        let lens = [65_494, 65_495];
        let lengths = lengths_of(rt.alloc(), kind, &question, Transport::Tcp, lens)?;
        assert_eq!(rt; lengths, [Some(65_535), None]);
    }
    Ok(())
}

#[test]
fn past_512_octets_udp_gets_the_question(rt: HostRuntime) -> Result<(), Fail> {
    let question = hex::decode(rt.alloc(), CAPITAL_QUESTION)?;
    for kind in KINDS {
        let lens = [471, 472];
        let lengths = lengths_of(rt.alloc(), kind, &question, Transport::Udp, lens)?;
        assert_eq!(rt; lengths, [Some(512), Some(27)]);
    }
    Ok(())
}

/// The answer from a reply over UDP, both in hexadecimal digits.
fn answered(heap: Global, kind: Kind, question: &str, reply: &str) -> Result<String, Fail> {
    let refusing = Refusing::new(heap);
    let question = hex::decode(heap, question)?;
    let reply = hex::decode(heap, reply)?;
    let case = Case {
        kind,
        question: &question,
        reply: &reply,
    };
    match text(heap, &refusing, case, Transport::Udp)? {
        Some(text) => Ok(hex::encode(heap, text.as_slice())?),
        None => Err(Fail::from("too large")),
    }
}

/// The worked answer at once, and after 10.5 seconds, with 289 of the 300 seconds left.
const WORKED: [(u64, &str); 2] = [
    (
        0,
        "1234818000010001000000000161076578616d706c650000010001c00c000100010000012c0004c6336405",
    ),
    (
        10_500,
        "1234818000010001000000000161076578616d706c650000010001c00c00010001000001210004c6336405",
    ),
];

#[test]
fn worked_answers_in_octets(rt: HostRuntime) -> Result<(), Fail> {
    for (after, expected) in &WORKED {
        let text = answered(rt.alloc(), Kind::Left(*after), ADDRESS, ADDRESS)?;
        assert_eq!(rt; text.as_str(), *expected);
    }
    Ok(())
}

/// The opcode, whether the question is repeated, the response code, and the failure's octets:
/// SERVFAIL, FORMERR for an unreadable question, and NOTIMP for a status request (RFC 1035 4.1.1).
const FAILURES: [(u8, bool, u8, &str); 3] = [
    (
        0,
        true,
        2,
        "1234818200010000000000000161076578616d706c650000010001",
    ),
    (0, false, 1, "123481810000000000000000"),
    (2, false, 4, "123491840000000000000000"),
];

/// The failure of the worked question, in hexadecimal digits.
fn failed(heap: Global, opcode: u8, is_repeated: bool, rcode: u8) -> Result<String, Fail> {
    let octets = hex::decode(heap, ADDRESS)?;
    let question = MessageRef::view(&octets)?.question(heap)?;
    let asked = Asked {
        id: 0x1234,
        opcode,
        rd: true,
        question: if is_repeated { Some(question) } else { None },
    };
    if opcode >= 16 || rcode >= 16 {
        return Err(Fail::from("four bits"));
    }
    let text = failure(heap, &asked, rcode)?;
    Ok(hex::encode(heap, text.as_slice())?)
}

#[test]
fn worked_failures_in_octets(rt: HostRuntime) -> Result<(), Fail> {
    for (opcode, is_repeated, rcode, expected) in &FAILURES {
        let text = failed(rt.alloc(), *opcode, *is_repeated, *rcode)?;
        assert_eq!(rt; text.as_str(), *expected);
    }
    Ok(())
}

/// The address of a.example, expired, with 30 seconds.
const STALE: &str =
    "1234818000010001000000000161076578616d706c650000010001c00c000100010000001e0004c6336405";

/// An alias held by the question, expired: no second left. The address has 300 of 600 seconds.
const HELD_ALIAS: &str = "123481800001000200000000\
     0162076578616d706c650000010001c00c000500010000000000040161c00ec027000100010000012c0004c6336409";

/// An alias found expired, with 30 seconds.
const FOUND_ALIAS: &str = "123481800001000200000000\
     0162076578616d706c650000010001c00c000500010000001e00040161c00ec027000100010000012c0004c6336409";

#[test]
fn a_stale_answer_has_30_seconds(rt: HostRuntime) -> Result<(), Fail> {
    for (stale, reply, expected) in [
        (0, ADDRESS, STALE),
        (1, ALIAS, HELD_ALIAS),
        (0, ALIAS, FOUND_ALIAS),
    ] {
        let text = answered(rt.alloc(), Kind::Stale(stale), reply, reply)?;
        assert_eq!(rt; text.as_str(), expected);
    }
    Ok(())
}

/// h.lan A.
const LAN_QUESTION: &str = "1234010000010000000000000168036c616e0000010001";

/// An empty reply: a.example has no address, and there is no SOA.
const NOTHING: &str = "0008850000010000000000000161076578616d706c650000010001";

/// The header with response code 3, and the question.
const LAN: &str = "1234818300010000000000000168036c616e0000010001";

/// The header with response code 3, the question, and the alias, with a second of the TTL passed.
const LAN_ALIAS: &str =
    "1234818300010001000000000161076578616d706c650000010001c00c000500010000003b00070168036c616e00";

#[test]
fn a_route_denies_after_aliases(rt: HostRuntime) -> Result<(), Fail> {
    for (question, reply, expected) in [(LAN_QUESTION, NOTHING, LAN), (TO_LAN, TO_LAN, LAN_ALIAS)] {
        let text = answered(rt.alloc(), Kind::Local, question, reply)?;
        assert_eq!(rt; text.as_str(), expected);
    }
    Ok(())
}

#[test]
fn what_is_said_of_a_fault(rt: HostRuntime) -> Result<(), Fail> {
    let heap = rt.alloc();
    let too_large = format!(in heap; "{}", Fault::TooLarge)?;
    assert_eq!(rt; too_large.as_str(), "an answer of over 65,535 octets");
    let memory = format!(in heap; "{}", Fault::Memory)?;
    assert_eq!(rt; memory.as_str(), "memory ran out");
    Ok(())
}
