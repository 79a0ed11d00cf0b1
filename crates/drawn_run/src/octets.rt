//! Octets of messages: names, numbers, and changes on the way.

use crate::draws::Draws;
use std::alloc::{AllocError, Global};

/// How many names are drawn from.
pub(crate) const NAMES: u32 = 64;

/// The ends of the names, each on a route of its own if there are several routes.
const SUFFIXES: [&[u8]; 4] = [
    b"\x07example\0",
    b"\x04corp\x07example\0",
    b"\x04home\x07example\0",
    b"\x04test\0",
];

/// Octets with a meaning in messages: root, lengths, pointers, types.
const TELLING: [u8; 12] = [0, 1, 2, 5, 6, 12, 14, 33, 63, 64, 192, 255];

/// Puts a number of 16 bits last.
pub(crate) fn put16(octets: &mut Vec<u8>, number: u16) -> Result<(), AllocError> {
    octets.extend_from_slice(&number.to_be_bytes())
}

/// The number at this place; 0 after the end.
pub(crate) fn number16(octets: &[u8], place: usize) -> u16 {
    match octets.get(place..) {
        Some([high, low, ..]) => u16::from_be_bytes([*high, *low]),
        _ => 0,
    }
}

/// Writes a number of 16 bits at this place, if the octets are long enough.
pub(crate) fn set16(octets: &mut [u8], place: usize, number: u16) {
    let [high, low] = number.to_be_bytes();
    if let Some(octet) = octets.get_mut(place) {
        *octet = high;
    }
    if let Some(octet) = octets.get_mut(place.saturating_add(1)) {
        *octet = low;
    }
}

/// Puts the name of this number last. Number 0 is the root, each fifth name has over 180 octets,
/// and the case of the first label is drawn.
pub(crate) fn put_name(
    draws: &mut Draws,
    octets: &mut Vec<u8>,
    number: u32,
) -> Result<(), AllocError> {
    if number == 0 {
        return octets.extend_from_slice(b"\0");
    }
    if number % 5 == 4 {
        for _ in 0..3 {
            octets.extend_from_slice(&[60])?;
            octets.extend_from_slice(&[b'n'; 60])?;
        }
    }
    let first = draws.pick(b"aaaA");
    let second = b'a' + (number / 4 % 26) as u8;
    octets.extend_from_slice(&[2, first, second])?;
    octets.extend_from_slice(SUFFIXES[number as usize % 4])
}

/// The octets of the name of this number.
pub(crate) fn name(alloc: Global, draws: &mut Draws, number: u32) -> Result<Vec<u8>, AllocError> {
    let mut octets = Vec::new(alloc);
    put_name(draws, &mut octets, number)?;
    Ok(octets)
}

/// Changes octets at or after a place: a bit or an octet differs, or all octets after a place are
/// missing, or there are more octets.
pub(crate) fn change(
    draws: &mut Draws,
    octets: &mut Vec<u8>,
    from: usize,
) -> Result<(), AllocError> {
    let place = draws
        .place(octets.len().saturating_sub(from))
        .unwrap_or(0)
        .saturating_add(from);
    match draws.below(4) {
        0 => {
            let bit = draws.pick(&[1u8, 2, 4, 8, 16, 32, 64, 128]);
            if let Some(octet) = octets.get_mut(place) {
                *octet ^= bit;
            }
        }
        1 => {
            if let Some(octet) = octets.get_mut(place) {
                *octet = draws.pick(&TELLING);
            }
        }
        2 => octets.truncate(place),
        _ => octets.extend_from_slice(&[draws.pick(&TELLING); 20])?,
    }
    Ok(())
}
