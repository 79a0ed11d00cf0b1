//! Messages, as read, and their faults.

use dns_message::{Fault, MessageRef};
use std::alloc::Global;
use std::test::Fail;

/// Octets of no message, and the first fault from the front.
const FAULTS: [(&str, Fault); 12] = [
    ("0008850000010001000000", Fault::Short),
    (
        "000885000000000100000000c00c000100010000012c0004c6336405",
        Fault::NoQuestion,
    ),
    // A question's name, pointing to itself.
    ("000885000001000000000000c00c00010001", Fault::Pointer),
    // An owner pointing to itself, and an owner pointing to a later place.
    (
        "0008850000010001000000000161076578616d706c650000010001c01b000100010000012c0004c6336405",
        Fault::Pointer,
    ),
    (
        "0008850000010001000000000161076578616d706c650000010001c01d000100010000012c0004c6336405",
        Fault::Pointer,
    ),
    (
        "0008850000010001000000000161076578616d706c6500000100014061000100010000012c0004c6336405",
        Fault::LabelForm,
    ),
    // Aliases: an octet left over, an octet too few, twice, a missing octet, a pointer to itself.
    (
        "0008850000010001000000000161076578616d706c650000010001c00c000500010000003c0003c00c00",
        Fault::Rdata,
    ),
    (
        "0008850000010001000000000161076578616d706c650000010001c00c000500010000003c0001c00c",
        Fault::Rdata,
    ),
    (
        "0008850000010001000000000161076578616d706c650000010001c00c000500010000003c0001c0",
        Fault::Rdata,
    ),
    (
        "0008850000010001000000000161076578616d706c650000010001c00c000500010000003c0002c0",
        Fault::Short,
    ),
    (
        "0008850000010001000000000161076578616d706c650000010001c00c000500010000003c0002c027",
        Fault::Pointer,
    ),
    // A count above the number of answers.
    (
        "000885000001ffff000000000161076578616d706c650000010001c00c000100010000012c0004c6336405",
        Fault::Short,
    ),
];

fn decoded(alloc: Global, digits: &str) -> Result<Vec<u8>, Fail> {
    Ok(hex::decode(alloc, digits)?)
}

/// The fault of `view`, or otherwise of `read_whole`.
fn fault_of(alloc: Global, octets: &[u8]) -> Option<Fault> {
    match MessageRef::view(octets) {
        Err(fault) => Some(fault),
        Ok(view) => view.read_whole(alloc).err(),
    }
}

#[test]
fn the_first_fault_is_reported(rt: HostRuntime) -> Result<(), Fail> {
    for (digits, fault) in &FAULTS {
        let octets = decoded(rt.alloc(), digits)?;
        assert_eq!(rt; fault_of(rt.alloc(), &octets), Some(*fault), "{digits}");
    }
    Ok(())
}

/// Owners, ending with a pointer to a name of 127 labels (offset 12) or to its last 126 labels
/// (offset 14), each with the number of labels or the fault. The names have 255, 257 and 256
/// octets.
const LONG_OWNERS: [(&[u8], Result<usize, Fault>); 3] = [
    (b"\x01a\xc0\x0e", Ok(127)),
    (b"\x01a\xc0\x0c", Err(Fault::NameLong)),
    (b"\x02aa\xc0\x0e", Err(Fault::NameLong)),
];

/// A message with a question of 127 labels of an octet each, and an address of the given owner.
fn under_127_labels(alloc: Global, owner: &[u8]) -> Result<Vec<u8>, Fail> {
    let mut octets = decoded(alloc, "000885000001000100000000")?;
    for _ in 0..127u8 {
        octets.extend_from_slice(b"\x01a".as_slice())?;
    }
    octets.extend_from_slice(b"\x00\x00\x01\x00\x01".as_slice())?;
    octets.extend_from_slice(owner)?;
    octets.extend_from_slice(b"\x00\x01\x00\x01\x00\x00\x01\x2c\x00\x04\xc63d\x05".as_slice())?;
    Ok(octets)
}

/// The number of labels of the only answer's owner.
fn labels_of_owner(alloc: Global, octets: &[u8]) -> Result<usize, Fault> {
    let message = MessageRef::view(octets)?.read_whole(alloc)?;
    match message.answers.as_slice() {
        [record] => Ok(record.owner.labels().count()),
        _ => Err(Fault::Short),
    }
}

#[test]
fn a_name_has_at_most_255_octets(rt: HostRuntime) -> Result<(), Fail> {
    for (owner, wanted) in &LONG_OWNERS {
        let octets = under_127_labels(rt.alloc(), owner)?;
        assert_eq!(rt; labels_of_owner(rt.alloc(), &octets), *wanted);
    }
    Ok(())
}

/// The text of each fault.
const SAID: [(Fault, &str); 8] = [
    (Fault::Short, "the octets end too soon"),
    (Fault::LabelForm, "no label and no pointer begins so"),
    (Fault::Pointer, "a pointer does not lead back"),
    (Fault::NameLong, "a name has more than 255 octets"),
    (Fault::Rdata, "the data of a record is not of its shape"),
    (Fault::TooLarge, "the message is too large"),
    (Fault::Memory, "memory ran out"),
    (Fault::NoQuestion, "the message has no question"),
];

#[test]
fn what_is_said_of_a_fault(rt: HostRuntime) -> Result<(), Fail> {
    for (fault, wanted) in &SAID {
        let said = format!(in rt.alloc(); "{fault}")?;
        assert_eq!(rt; said.as_str(), *wanted);
    }
    Ok(())
}
