//! Record data: the name in data, and data made from a vector.

use dns_message::Rdata;
use refusing_allocator::Refusing;
use std::alloc::{AllocError, Allocator, Global};
use std::test::Fail;

/// Data, and the octets of the name in the data, without the final zero octet.
const NAMES: [(&[u8], Option<&[u8]>); 2] = [
    (b"\x01a\x07example\x00", Some(b"\x01a\x07example")),
    (b"\xc63d\x05", None),
];

/// Whether the data is the wanted name; for `None`, whether the data is no name.
fn has_name(alloc: Global, data: &[u8], wanted: Option<&[u8]>) -> Result<bool, AllocError> {
    let data = Rdata::from_octets(alloc, data)?;
    match data.name(alloc)? {
        Some(name) => Ok(wanted == Some(name.octets())),
        None => Ok(wanted.is_none()),
    }
}

#[test]
fn data_is_a_name_or_none(rt: HostRuntime) -> Result<(), Fail> {
    for (data, wanted) in &NAMES {
        assert!(rt; has_name(rt.alloc(), data, *wanted)?, "{data:?}");
    }
    Ok(())
}

/// Lengths of vectors. Data up to 30 octets is kept in place.
const LENGTHS: [u16; 4] = [3, 30, 31, 300];

/// `length` octets, counting up.
fn counting<A: Allocator>(alloc: A, length: u16) -> Result<Vec<u8, A>, AllocError> {
    let mut octets = Vec::new(alloc);
    for place in 0..length {
        octets.push((place & 255) as u8)?;
    }
    Ok(octets)
}

/// Whether data made from a vector of `length` octets has the vector's octets, without an
/// allocation.
fn is_made_in_place(heap: &Refusing<Global>, length: u16) -> Result<bool, AllocError> {
    heap.allow(u64::MAX);
    let octets = counting(heap, length)?;
    let wanted = counting(heap, length)?;
    heap.allow(0);
    let data = Rdata::new(octets);
    Ok(data.octets() == wanted.as_slice())
}

#[test]
fn data_of_a_vector_takes_no_memory(rt: HostRuntime) -> Result<(), Fail> {
    let heap = Refusing::new(rt.alloc());
    for length in &LENGTHS {
        assert!(rt; is_made_in_place(&heap, *length)?, "of {length}");
    }
    Ok(())
}
