//! A reply cut anywhere, and the longest reply.

use dns_message::Question;
use dns_name::{Name, NameFault};
use outstanding::{Ask, Path};
use reply_match::{Verdict, judge};
use std::alloc::Global;
use std::test::Fail;
use suffix_routes::{Peer, RouteId};

/// The asked server.
const SERVER: Peer = Peer {
    ip: [192, 0, 2, 1],
    port: 53,
};

/// The reply to the ask: a.example has the address 198.51.100.5. The header has 12 octets, the
/// question 15.
const REPLY: [u8; 43] =
    *b"\x00\x08\x85\x00\x00\x01\x00\x01\x00\x00\x00\x00\x01a\x07example\x00\x00\x01\x00\x01\xc0\x0c\x00\x01\x00\x01\x00\x00\x01\x2c\x00\x04\xc6\x33\x64\x05";

/// An ask for the address of a.example, with identifier 8.
fn ask(heap: Global) -> Result<Ask, NameFault> {
    Ok(Ask {
        question: Question {
            name: Name::from_text(heap, "a.example")?,
            kind: 1,
            class: 1,
        },
        route: RouteId { place: 0 },
        server: 0,
        peer: SERVER,
        used: 1,
        path: Path::Udp(1032),
        id: 8,
        asked: 1000,
    })
}

/// The verdict on the first `octets` octets of the reply. A reply needs header and question.
fn wanted(octets: usize) -> Verdict {
    match octets {
        0..=26 => Verdict::Stranger,
        27..=42 => Verdict::Malformed,
        _ => Verdict::Whole,
    }
}

#[test]
fn beginnings_of_the_reply(rt: HostRuntime) -> Result<(), Fail> {
    let ask = ask(rt.alloc())?;
    for octets in 0..=REPLY.len() {
        let verdict = judge(&ask, SERVER, &REPLY[..octets]).verdict();
        assert_eq!(rt; verdict, wanted(octets), "{octets} octets");
    }
    Ok(())
}

#[test]
fn octets_after_the_reply(rt: HostRuntime) -> Result<(), Fail> {
    let heap = rt.alloc();
    let ask = ask(heap)?;
    let mut bytes = Vec::from_slice(heap, &REPLY)?;
    bytes.resize(65_535, 0)?;
    assert_eq!(rt; judge(&ask, SERVER, &bytes).verdict(), Verdict::Whole);
    bytes.push(0)?;
    assert_eq!(rt; judge(&ask, SERVER, &bytes).verdict(), Verdict::Stranger);
    Ok(())
}
