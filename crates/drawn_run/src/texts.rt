//! The messages of a forwarder, read back.

use crate::ledger::{Ledger, Waiting};
use crate::octets::number16;
use dns_message::{Header, MessageRef};
use std::alloc::Global;
use step_values::Path;

/// The path and the identifier drawn by the words for UDP: the first port without an open query.
pub(crate) fn drawn_by_udp(words: [u32; 8], ledger: &Ledger) -> Option<(Path, u16)> {
    for word in words {
        let path = Path::Udp((1024 + word / 65_536 % 64_512) as u16);
        if !ledger.is_open(path) {
            return Some((path, (word % 65_536) as u16));
        }
    }
    None
}

/// The path and the identifier drawn by the words for TCP: the next connection.
pub(crate) fn drawn_over_tcp(words: [u32; 8], ledger: &Ledger) -> Option<(Path, u16)> {
    Some((Path::Tcp(ledger.over_tcp), (words[0] % 65_536) as u16))
}

/// Whether octets are a query with this identifier: RD alone is set, and there is one question,
/// with a name without pointers, and nothing else.
pub(crate) fn is_query(octets: &[u8], id: u16) -> bool {
    let Ok(view) = MessageRef::view(octets) else {
        return false;
    };
    number16(octets, 0) == id
        && number16(octets, 2) == 0x0100
        && view.header().counts == [1, 0, 0, 0]
        && view.question_ref().is_some_and(|asked| asked.name().len().saturating_add(17)
            == octets.len())
}

/// Whether octets are a readable reply to a question: QR and RA are set, AA and Z are clear, opcode
/// and RD are the question's. A reply without a question is a header alone.
pub(crate) fn is_reply(alloc: Global, octets: &[u8], question: &Waiting) -> bool {
    if number16(octets, 2) & 0xfdf0 != 0x8080 | question.head[1] & 0x7900 {
        return false;
    }
    match MessageRef::view(octets) {
        Ok(view) => view.read_whole(alloc).is_ok(),
        Err(_) => octets.len() == 12 && octets.iter().skip(4).all(|octet| *octet == 0),
    }
}

/// Whether a client's message is dropped: under 12 octets, or a reply.
pub(crate) fn is_dropped(octets: &[u8]) -> bool {
    Header::read(octets).is_none_or(|header| header.qr)
}
