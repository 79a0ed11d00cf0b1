//! Many messages, whole, cut and changed.

use crate::messages::MESSAGES;
use crate::shapes::SHAPES;
use dns_message::{Fault, MessageRef, write};
use plain_values::Octets;
use rand_core::utils::NextWord;
use rand_pcg::Pcg32;
use std::alloc::{AllocError, Global};
use std::test::Fail;

/// The number of changed messages.
const CHANGED: u32 = 20_000;

/// Octets with a meaning in a message: root, lengths, pointers, types.
const TELLING: [u8; 12] = [0, 1, 2, 5, 6, 12, 14, 33, 63, 64, 192, 255];

fn octets_of(alloc: Global, digits: &str) -> Result<Vec<u8>, Fail> {
    Ok(hex::decode(alloc, digits)?)
}

/// Whether judging the octets without allocating agrees with reading them whole.
fn judging_agrees(alloc: Global, octets: &[u8]) -> Result<bool, AllocError> {
    let Ok(view) = MessageRef::view(octets) else {
        return Ok(true);
    };
    match view.read_whole(alloc) {
        Ok(_) => Ok(view.is_whole()),
        Err(Fault::Memory) => Err(AllocError),
        Err(_) => Ok(!view.is_whole()),
    }
}

/// Whether judging agrees with reading for each beginning of the octets, and for all octets.
fn beginnings_agree(alloc: Global, octets: &[u8]) -> Result<bool, AllocError> {
    for end in 0..octets.len() {
        if !judging_agrees(alloc, &octets[..end])? {
            return Ok(false);
        }
    }
    judging_agrees(alloc, octets)
}

/// Whether judging agrees with reading for each beginning of a message's written text, if the
/// octets are a whole message.
fn written_beginnings_agree(alloc: Global, octets: &[u8]) -> Result<bool, Fail> {
    if !is_whole(octets) {
        return Ok(true);
    }
    let written = rewritten(alloc, octets)?;
    Ok(beginnings_agree(alloc, written.as_slice())?)
}

/// Whether [`beginnings_agree`] and [`written_beginnings_agree`] hold for each message.
fn all_beginnings_agree(alloc: Global, messages: &[&str]) -> Result<bool, Fail> {
    for digits in messages {
        let octets = octets_of(alloc, digits)?;
        if !beginnings_agree(alloc, &octets)? || !written_beginnings_agree(alloc, &octets)? {
            return Ok(false);
        }
    }
    Ok(true)
}

#[test]
fn every_beginning_is_judged_as_it_is_read(rt: HostRuntime) -> Result<(), Fail> {
    let are_whole = all_beginnings_agree(rt.alloc(), &MESSAGES)?;
    assert!(rt; are_whole && all_beginnings_agree(rt.alloc(), &SHAPES)?);
    Ok(())
}

/// The written text of the message in these octets.
fn rewritten(alloc: Global, octets: &[u8]) -> Result<Octets<Global>, Fault> {
    let message = MessageRef::view(octets)?.read_whole(alloc)?;
    write(alloc, &message, 65535)
}

/// Whether the written text, read and written again, is unchanged.
fn is_settled(alloc: Global, octets: &[u8]) -> Result<bool, Fault> {
    let written = rewritten(alloc, octets)?;
    let again = rewritten(alloc, written.as_slice())?;
    Ok(again.as_slice() == written.as_slice())
}

/// Whether the octets are a whole message.
fn is_whole(octets: &[u8]) -> bool {
    MessageRef::view(octets).is_ok_and(|view| view.is_whole())
}

/// A right message with up to three changed octets.
fn changed(alloc: Global, words: &mut Pcg32, turn: u32) -> Result<Vec<u8>, Fail> {
    let at = turn as usize % (MESSAGES.len() + SHAPES.len());
    let digits = match MESSAGES.get(at) {
        Some(digits) => digits,
        None => SHAPES[at - MESSAGES.len()],
    };
    let mut octets = octets_of(alloc, digits)?;
    for _ in 0..=turn % 3 {
        let place = words.next_word() as usize % (octets.len() + 1);
        let choice = words.next_word() as usize;
        if let Some(octet) = octets.get_mut(place) {
            *octet = match TELLING.get(choice % 24) {
                Some(telling) => *telling,
                None => (choice / 24 % 256) as u8,
            };
        }
    }
    Ok(octets)
}

#[test]
fn changed_messages_are_read_and_written_again(rt: HostRuntime) -> Result<(), Fail> {
    let mut words = Pcg32::new(42, 54);
    let mut whole = 0u32;
    for turn in 0..CHANGED {
        let octets = changed(rt.alloc(), &mut words, turn)?;
        assert!(rt; judging_agrees(rt.alloc(), &octets)?, "turn {turn}");
        if is_whole(&octets) {
            whole = whole.saturating_add(1);
            assert!(rt; is_settled(rt.alloc(), &octets)?, "turn {turn}");
        }
    }
    // Both outcomes are frequent.
    assert!(rt; whole > CHANGED / 4);
    assert!(rt; whole < CHANGED);
    Ok(())
}
