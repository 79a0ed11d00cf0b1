//! Replies of servers.

use crate::draws::Draws;
use crate::octets::{NAMES, name, number16, put16, set16};
use std::alloc::{AllocError, Global};

/// The type of an alias (RFC 1035 3.3.1).
const CNAME: u16 = 5;

/// The type of the record of a denial (RFC 1035 3.3.13).
const SOA: u16 = 6;

/// The type of a name server (RFC 1035 3.3.11).
const NS: u16 = 2;

/// TTLs in seconds. A TTL with the top bit set counts as 0 (RFC 2181 8).
const TTLS: [u32; 8] = [0, 1, 30, 300, 300, 604_800, 0x7fff_ffff, 0x8000_0000];

/// How many aliases a reply begins with.
const ALIASES: [u32; 16] = [0, 0, 0, 0, 0, 0, 0, 0, 0, 1, 1, 2, 5, 7, 8, 9];

/// The type of a service's servers, whose names are never shortened (RFC 2782).
const SRV: u16 = 33;

/// How many records a set has.
const ROWS: [u32; 16] = [0, 1, 1, 1, 1, 1, 1, 1, 1, 1, 2, 2, 3, 3, 7, 40];

/// The number of records of a large set: 400 of type SRV with long names exceed a message over TCP.
const MANY: [u32; 3] = [255, 400, 400];

/// The places of the counts in the header, by section (RFC 1035 4.1.1).
const ANSWERS: usize = 6;

const AUTHORITY: usize = 8;

const ADDITIONAL: usize = 10;

/// A reply to a query: aliases, then a set, a denial with or without an SOA record, or nothing.
pub(crate) fn reply(alloc: Global, draws: &mut Draws, query: &[u8]) -> Result<Vec<u8>, AllocError> {
    let mut draft = begin(alloc, draws, query)?;
    let first = draws.below(NAMES);
    for number in 0..draws.pick(&ALIASES) {
        let target = first.saturating_add(number) % NAMES;
        put_alias(alloc, draws, &mut draft, target)?;
    }
    match draws.below(8) {
        0 => {}
        1 | 2 => put_denial(alloc, draws, &mut draft)?,
        _ => put_set(alloc, draws, &mut draft)?,
    }
    if draws.one_in(4) {
        put_others(alloc, draws, &mut draft)?;
    }
    let Draft { octets, .. } = draft;
    Ok(octets)
}

/// A reply, half written.
#[derive(Drop)]
struct Draft {
    octets: Vec<u8>,
    /// The asked type and class.
    kind: u16,
    class: u16,
    /// The place of the next record's name.
    owner: u16,
}

/// The header and the question of a reply to a query.
fn begin(alloc: Global, draws: &mut Draws, query: &[u8]) -> Result<Draft, AllocError> {
    let mut octets = Vec::from_slice(alloc, query)?;
    let end = query.len();
    set16(&mut octets, 2, flags(draws));
    Ok(Draft {
        octets,
        kind: number16(query, end.saturating_sub(4)),
        class: number16(query, end.saturating_sub(2)),
        owner: 12,
    })
}

/// The flags of a reply: QR, mostly AA, RD and RA, seldom TC, any opcode, Z or RCODE.
fn flags(draws: &mut Draws) -> u16 {
    let mostly = match draws.below(32) {
        0 => 0x8000 | draws.bits(),
        1 => 0x8700,
        2..=4 => 0x8500 | draws.bits() % 16,
        5..=7 => 0x8503,
        _ => 0x8500,
    };
    let cleared = draws.pick(&[0u16, 0, 0, 0x0100, 0x0400, 0x0500]);
    mostly & !cleared | draws.pick(&[0x0080, 0x0080, 0])
}

/// Puts an alias of the present name last; its target is the present name then.
fn put_alias(
    alloc: Global,
    draws: &mut Draws,
    draft: &mut Draft,
    target: u32,
) -> Result<(), AllocError> {
    let data = name(alloc, draws, target)?;
    let place = draft.octets.len().saturating_add(12);
    put_record(draws, draft, ANSWERS, CNAME, &data)?;
    draft.owner = u16::try_from(place).unwrap_or(12);
    Ok(())
}

/// Puts the SOA record of a denial last.
fn put_denial(alloc: Global, draws: &mut Draws, draft: &mut Draft) -> Result<(), AllocError> {
    let data = soa(alloc, draws)?;
    put_record(draws, draft, AUTHORITY, SOA, &data)
}

/// Puts a set of the present name last.
fn put_set(alloc: Global, draws: &mut Draws, draft: &mut Draft) -> Result<(), AllocError> {
    let kind = draft.kind;
    for number in 0..rows(draws, kind) {
        let data = data(alloc, draws, kind, number)?;
        put_record(draws, draft, ANSWERS, kind, &data)?;
    }
    Ok(())
}

/// How many records the set of this type has: seldom many.
fn rows(draws: &mut Draws, kind: u16) -> u32 {
    if kind == CNAME || kind == SOA {
        return 1;
    }
    if draws.one_in(if kind == SRV { 8 } else { 80 }) {
        draws.pick(&MANY)
    } else {
        draws.pick(&ROWS)
    }
}

/// The data of a record of this type, another for each number. Names in the data of MX and SRV are
/// pointers to the asked name.
fn data(alloc: Global, draws: &mut Draws, kind: u16, number: u32) -> Result<Vec<u8>, AllocError> {
    let [_, _, high, low] = number.to_be_bytes();
    match kind {
        1 => Vec::from_slice(alloc, &[10, 0, high, low]),
        15 => Vec::from_slice(alloc, &[high, low, 0xc0, 12]),
        16 => {
            let mut octets = Vec::from_slice(alloc, &[202, high, low])?;
            octets.extend_from_slice(&[b't'; 200])?;
            Ok(octets)
        }
        28 => Vec::from_slice(
            alloc,
            &[32, 1, 13, 184, 0, 0, 0, 0, 0, 0, 0, 0, 0, 0, high, low],
        ),
        SRV => Vec::from_slice(alloc, &[high, low, 0, 0, 0, 53, 0xc0, 12]),
        NS | CNAME => name(alloc, draws, number % NAMES),
        SOA => soa(alloc, draws),
        _ => Vec::from_slice(alloc, &[high, low]),
    }
}

/// The data of an SOA record with the root for both names. Its MINIMUM is drawn.
fn soa(alloc: Global, draws: &mut Draws) -> Result<Vec<u8>, AllocError> {
    let mut octets = Vec::from_slice(alloc, &[0, 0])?;
    octets.extend_from_slice(&[0, 0, 0, 1, 0, 0, 0, 2, 0, 0, 0, 3, 0, 0, 0, 4])?;
    octets.extend_from_slice(&draws.pick(&TTLS).to_be_bytes())?;
    Ok(octets)
}

/// Puts name servers and an unasked address last.
fn put_others(alloc: Global, draws: &mut Draws, draft: &mut Draft) -> Result<(), AllocError> {
    let number = draws.below(NAMES);
    let server = name(alloc, draws, number)?;
    put_record(draws, draft, AUTHORITY, NS, &server)?;
    put_record(draws, draft, AUTHORITY, NS, b"\x02ns\0")?;
    put_record(draws, draft, ADDITIONAL, 1, &[10, 9, 9, 9])
}

/// Puts a record of this type last, and counts the record.
fn put_record(
    draws: &mut Draws,
    draft: &mut Draft,
    section: usize,
    kind: u16,
    data: &[u8],
) -> Result<(), AllocError> {
    put16(&mut draft.octets, 0xc000 | draft.owner % 0x4000)?;
    put16(&mut draft.octets, kind)?;
    put16(&mut draft.octets, draft.class)?;
    let ttl = draws.pick(&TTLS);
    draft.octets.extend_from_slice(&ttl.to_be_bytes())?;
    put16(&mut draft.octets, u16::try_from(data.len()).unwrap_or(0))?;
    draft.octets.extend_from_slice(data)?;
    let count = number16(&draft.octets, section);
    set16(&mut draft.octets, section, count.saturating_add(1));
    Ok(())
}
