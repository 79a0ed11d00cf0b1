//! The data of each type with names, as read and as written again.

use dns_message::{Fault, MessageRef, write};
use std::alloc::Global;
use std::test::Fail;

/// A type, and its data in a message with a.example at 12 and example at 14; then the data in full,
/// and the data as written again. Types of RFC 1035 3.3 are written with pointers, types of later
/// documents in full (RFC 3597 4), types without names unchanged. After a number comes a label of
/// two octets. With its length octet the label is no 16-bit number, so a shape with a further
/// number is noticed.
const WORKED: [(u16, &str, &str, &str); 22] = [
    // NS, MD, MF, CNAME, MB, MG, MR, PTR: a name (RFC 1035 3.3).
    (2, "0162c00e", "0162076578616d706c6500", "0162c00e"),
    (3, "0162c00e", "0162076578616d706c6500", "0162c00e"),
    (4, "0162c00e", "0162076578616d706c6500", "0162c00e"),
    (5, "0162c00e", "0162076578616d706c6500", "0162c00e"),
    (7, "0162c00e", "0162076578616d706c6500", "0162c00e"),
    (8, "0162c00e", "0162076578616d706c6500", "0162c00e"),
    (9, "0162c00e", "0162076578616d706c6500", "0162c00e"),
    (12, "0162c00e", "0162076578616d706c6500", "0162c00e"),
    // SOA: two names and five numbers of 32 bits (3.3.13).
    (
        6,
        "c00c0162c00e0000000100000002000000030000000400000005",
        "0161076578616d706c65000162076578616d706c65000000000100000002000000030000000400000005",
        "c00c0162c00e0000000100000002000000030000000400000005",
    ),
    // MINFO: two names (3.3.7).
    (
        14,
        "0162c00ec00c",
        "0162076578616d706c65000161076578616d706c6500",
        "0162c00ec00c",
    ),
    // MX: a number of 16 bits and a name (3.3.9).
    (
        15,
        "000a026e73c00e",
        "000a026e73076578616d706c6500",
        "000a026e73c00e",
    ),
    // RP: two names (RFC 1183 2.2).
    (
        17,
        "0162c00ec00c",
        "0162076578616d706c65000161076578616d706c6500",
        "0162076578616d706c65000161076578616d706c6500",
    ),
    // AFSDB and RT: a number of 16 bits and a name (RFC 1183 1, 3.3).
    (
        18,
        "0001026e73c00e",
        "0001026e73076578616d706c6500",
        "0001026e73076578616d706c6500",
    ),
    (
        21,
        "000a026e73c00e",
        "000a026e73076578616d706c6500",
        "000a026e73076578616d706c6500",
    ),
    // PX: a number of 16 bits and two names (RFC 2163 4).
    (
        26,
        "000a026e73c00ec00c",
        "000a026e73076578616d706c65000161076578616d706c6500",
        "000a026e73076578616d706c65000161076578616d706c6500",
    ),
    // SRV: three numbers of 16 bits and a name (RFC 2782).
    (
        33,
        "000000010035026e73c00e",
        "000000010035026e73076578616d706c6500",
        "000000010035026e73076578616d706c6500",
    ),
    // NAPTR: two numbers of 16 bits, three texts and a name (RFC 3403 4.1).
    (
        35,
        "0064000a0173075349502b44325500c00e",
        "0064000a0173075349502b44325500076578616d706c6500",
        "0064000a0173075349502b44325500076578616d706c6500",
    ),
    // A, NULL, TXT, AAAA and an unassigned type: any octets.
    (1, "c00cc00e", "c00cc00e", "c00cc00e"),
    (10, "0162c00e", "0162c00e", "0162c00e"),
    (16, "02c00e", "02c00e", "02c00e"),
    (
        28,
        "c00cc00ec00cc00ec00cc00ec00cc00e",
        "c00cc00ec00cc00ec00cc00ec00cc00e",
        "c00cc00ec00cc00ec00cc00ec00cc00e",
    ),
    (65280, "0162c00e", "0162c00e", "0162c00e"),
];

/// A reply with a single answer, of a.example, with this type and data.
fn with_data(alloc: Global, kind: u16, digits: &str) -> Result<Vec<u8>, Fail> {
    let mut octets: Vec<u8> = hex::decode(
        alloc,
        "0008850000010001000000000161076578616d706c650000010001c00c",
    )?;
    let data: Vec<u8> = hex::decode(alloc, digits)?;
    octets.extend_from_slice(kind.to_be_bytes().as_slice())?;
    octets.extend_from_slice(b"\x00\x01\x00\x00\x01\x2c".as_slice())?;
    let len = u16::try_from(data.len())?;
    octets.extend_from_slice(len.to_be_bytes().as_slice())?;
    octets.extend_from_slice(&data)?;
    Ok(octets)
}

/// The data of a message's only answer, as held.
fn held_data(alloc: Global, octets: &[u8]) -> Result<Vec<u8>, Fault> {
    let message = MessageRef::view(octets)?.read_whole(alloc)?;
    let mut held = Vec::new(alloc);
    if let [record] = message.answers.as_slice() {
        held.extend_from_slice(record.rdata.octets())?;
    }
    Ok(held)
}

/// Whether the only answer's held data is the data in these digits.
fn is_held(alloc: Global, octets: &[u8], digits: &str) -> Result<bool, Fail> {
    let held = held_data(alloc, octets)?;
    let wanted: Vec<u8> = hex::decode(alloc, digits)?;
    Ok(held.as_slice() == wanted.as_slice())
}

/// Whether the message is written again as the wanted octets.
fn is_written(alloc: Global, octets: &[u8], wanted: &[u8]) -> Result<bool, Fault> {
    let message = MessageRef::view(octets)?.read_whole(alloc)?;
    Ok(write(alloc, &message, 65535)?.as_slice() == wanted)
}

#[test]
fn data_of_every_shape_is_read_and_written_again(rt: HostRuntime) -> Result<(), Fail> {
    for (kind, spelled, held, written) in &WORKED {
        let octets = with_data(rt.alloc(), *kind, spelled)?;
        assert!(rt; is_held(rt.alloc(), &octets, held)?, "type {kind} read");
        let wanted = with_data(rt.alloc(), *kind, written)?;
        assert!(rt;
            is_written(rt.alloc(), &octets, &wanted)?,
            "type {kind} written"
        );
    }
    Ok(())
}
