//! Messages of clients.

use crate::draws::Draws;
use crate::octets::{NAMES, change, put_name, put16};
use std::alloc::{AllocError, Global};
use step_values::Client;
use suffix_routes::Peer;

/// Asked types; 0, 41, 128 and 255 are not served.
const KINDS: [u16; 16] = [1, 1, 1, 1, 28, 28, 16, 15, 33, 33, 2, 5, 6, 1000, 41, 255];

/// A client of a few.
pub(crate) fn client(draws: &mut Draws) -> Client {
    if draws.one_in(3) {
        return Client::Tcp(u64::from(draws.below(6)));
    }
    Client::Udp(Peer {
        ip: [10, 0, 0, draws.pick(&[1, 2, 3, 4])],
        port: draws.pick(&[40_000, 40_001]),
    })
}

/// A message of a client with this identifier, which no change on the way touches.
pub(crate) fn question(alloc: Global, draws: &mut Draws, id: u16) -> Result<Vec<u8>, AllocError> {
    let mut octets = Vec::new(alloc);
    put16(&mut octets, id)?;
    put16(&mut octets, flags(draws))?;
    for count in counts(draws) {
        put16(&mut octets, count)?;
    }
    let number = draws.below(NAMES);
    put_name(draws, &mut octets, number)?;
    put16(&mut octets, draws.pick(&KINDS))?;
    put16(&mut octets, draws.pick(&[1, 1, 1, 1, 1, 1, 1, 3]))?;
    if draws.one_in(12) {
        change(draws, &mut octets, 2)?;
    }
    Ok(octets)
}

/// The flags of a question. Mostly RD alone is set; sometimes any bits are, QR too.
fn flags(draws: &mut Draws) -> u16 {
    match draws.below(32) {
        0 => draws.bits(),
        1 => draws.bits() % 0x8000,
        2 | 3 => draws.bits() % 0x0800,
        4 | 5 => 0,
        _ => 0x0100,
    }
}

/// The counts of a question: mostly one question and nothing else.
fn counts(draws: &mut Draws) -> [u16; 4] {
    match draws.below(32) {
        0 => [draws.pick(&[0, 2, 65_535]), 0, 0, 0],
        1 => [1, draws.bits(), draws.bits() % 3, 0],
        2 | 3 => [1, 0, 0, 1],
        _ => [1, 0, 0, 0],
    }
}
