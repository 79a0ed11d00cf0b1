//! Messages, as written.

use crate::equal::is_equal_message;
use crate::messages::REPLY;
use dns_message::{Fault, Message, MessageRef, write};
use plain_values::Octets;
use std::alloc::{Allocator, Global};
use std::test::Fail;

/// `write` for a header whose numbers fit their bits.
fn written<A: Allocator + Copy>(
    alloc: A,
    message: &Message<A>,
    limit: u16,
) -> Result<Octets<A>, Fault> {
    let header = message.header;
    if header.opcode > 15 || header.z > 7 || header.rcode > 15 {
        return Err(Fault::Short);
    }
    write(alloc, message, usize::from(limit))
}

/// The message in these octets, written within the limit.
fn written_again(alloc: Global, octets: &[u8], limit: u16) -> Result<Octets<Global>, Fault> {
    let message = MessageRef::view(octets)?.read_whole(alloc)?;
    written(alloc, &message, limit)
}

/// The message in these hexadecimal digits, written within 512 octets, again in digits.
fn rewritten(alloc: Global, digits: &str) -> Result<String, Fail> {
    let octets = hex::decode(alloc, digits)?;
    let text = written_again(alloc, &octets, 512)?;
    Ok(hex::encode(alloc, text.as_slice())?)
}

#[test]
fn a_reply_is_written_back(rt: HostRuntime) -> Result<(), Fail> {
    for limit in &[512, 43] {
        let text = written_again(rt.alloc(), REPLY, *limit)?;
        assert!(rt; text.as_slice() == REPLY, "at {limit}");
    }
    for limit in &[0, 11, 12, 26, 27, 42] {
        let fault = written_again(rt.alloc(), REPLY, *limit).err();
        assert_eq!(rt; fault, Some(Fault::TooLarge), "at {limit}");
    }
    Ok(())
}

/// Messages, as read and as written again.
const WORKED: [(&str, &str); 4] = [
    // A service's data, with the name written in full.
    (
        "0008850000010001000000000161076578616d706c650000010001c00c002100010000012c0008000000000035c00c",
        "0008850000010001000000000161076578616d706c650000010001c00c002100010000012c00110000000000350161076578616d706c6500",
    ),
    // Names received in full, and a name ending with an earlier name.
    (
        "123481800001000200000000016804636f7270076578616d706c6500000100010168\
         04636f7270076578616d706c65000005000100000000000a037777770474657374000377777704746573740000010001000000000004cb007163",
        "123481800001000200000000016804636f7270076578616d706c650000010001c00c0005000100000000000a03777777047465737400c02c000100010000\
         00000004cb007163",
    ),
    // A name in another letter case: the label is written, the end becomes a pointer.
    (
        "0002818000010001000000000141076578616d706c65000001000101610765\
         78616d706c6500000100010000012c0004c6336405",
        "0002818000010001000000000141076578616d706c6500000100010161c00e000100010000012c0004c6336405",
    ),
    // The two names of an SOA, the second sharing an end with the first.
    (
        "1234818300010000000100000178076578616d706c650000010001076578616d706c65000006000100000258002b026e73076578616d706c65000168076578616d706c65000000000100000002000000030000000400000258",
        "1234818300010000000100000178076578616d706c650000010001c00e0006000100000258001d026e73c00e0168c00e0000000100000002000000030000000400000258",
    ),
];

#[test]
fn a_name_is_a_pointer_where_it_stood_first(rt: HostRuntime) -> Result<(), Fail> {
    for (read, again) in &WORKED {
        assert_eq!(rt; rewritten(rt.alloc(), read)?.as_str(), *again);
    }
    Ok(())
}

/// A service at a.example (RFC 2782), with the target as a pointer and in full.
const SERVICES: [&[u8]; 2] = [
    b"\x00\x08\x85\x00\x00\x01\x00\x01\x00\x00\x00\x00\x01a\x07example\x00\x00\x01\x00\x01\xc0\x0c\x00\x21\x00\x01\x00\x00\x01\x2c\x00\x08\x00\x00\x00\x00\x005\xc0\x0c",
    b"\x00\x08\x85\x00\x00\x01\x00\x01\x00\x00\x00\x00\x01a\x07example\x00\x00\x01\x00\x01\xc0\x0c\x00\x21\x00\x01\x00\x00\x01\x2c\x00\x11\x00\x00\x00\x00\x005\x01a\x07example\x00",
];

/// Whether two texts spell equal messages.
fn spell_one(alloc: Global, one: &[u8], other: &[u8]) -> Result<bool, Fault> {
    let one = MessageRef::view(one)?.read_whole(alloc)?;
    let other = MessageRef::view(other)?.read_whole(alloc)?;
    Ok(is_equal_message(&one, &other))
}

#[test]
fn two_spellings_are_one_message(rt: HostRuntime) -> Result<(), Fail> {
    let [_, out] = SERVICES;
    for octets in &SERVICES {
        assert!(rt; spell_one(rt.alloc(), octets, out)?);
        let text = written_again(rt.alloc(), octets, 512)?;
        assert!(rt; text.as_slice() == out);
    }
    Ok(())
}

/// The number of octets before a repeated name, besides 28, and the repeated name as written: a
/// pointer leads to the offset 16,383 at most (RFC 1035 4.1.4).
const LAST_PLACES: [(u16, &[u8]); 2] = [(16355, b"\xff\xff"), (16356, b"\x01x\x00")];

/// A reply with `length` octets of data in the first answer, followed by two answers of owner `x`:
/// written in full, and as given.
fn after_a_filler(alloc: Global, length: u16, owner: &[u8]) -> Result<Vec<u8>, Fail> {
    let mut octets = hex::decode(
        alloc,
        "1234850000010003000000000000010001000010000100000000",
    )?;
    octets.extend_from_slice(&length.to_be_bytes())?;
    for _ in 0..length {
        octets.push(0)?;
    }
    for name in [b"\x01x\x00".as_slice(), owner] {
        octets.extend_from_slice(name)?;
        octets.extend_from_slice(b"\x00\x10\x00\x01\x00\x00\x00\x00\x00\x00".as_slice())?;
    }
    Ok(octets)
}

#[test]
fn a_pointer_leads_to_16383_at_most(rt: HostRuntime) -> Result<(), Fail> {
    for (length, owner) in &LAST_PLACES {
        let octets = after_a_filler(rt.alloc(), *length, owner)?;
        let text = written_again(rt.alloc(), &octets, 65535)?;
        assert!(rt; text.as_slice() == octets.as_slice(), "after {length}");
    }
    Ok(())
}
