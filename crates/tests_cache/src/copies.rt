//! Copies of replies' pieces, and the kept copy of a piece.

use crate::samples::{ADDRESS, ALIAS, NAME_ERROR, NO_DATA, pieces_of};
use dns_message::{DataRef, Record};
use lru::DefaultHasher;
use record_cache::{Cache, Offered};
use std::alloc::Global;
use std::mem::forget;
use std::test::Fail;
use trust_rank::{Body, Piece, Rows, Slot};

/// Whether the data is equal, order included.
fn is_same_rows(rows: &Rows, others: &Rows) -> bool {
    match (rows.data(), others.data()) {
        (DataRef::Row(row), DataRef::Row(other)) => row.octets() == other.octets(),
        (DataRef::Rows(rows), DataRef::Rows(others)) => {
            rows.len() == others.len()
                && rows
                    .iter()
                    .zip(others)
                    .all(|(row, other)| row.octets() == other.octets())
        }
        _ => false,
    }
}

fn is_same_record(record: &Record, other: &Record) -> bool {
    record.owner.octets() == other.owner.octets()
        && record.kind == other.kind
        && record.class == other.class
        && record.ttl == other.ttl
        && record.rdata.octets() == other.rdata.octets()
}

/// Whether both have an SOA, and the SOAs are equal.
fn is_same_soa(soa: &Option<Box<Record>>, other: &Option<Box<Record>>) -> bool {
    match (soa, other) {
        (Some(soa), Some(other)) => is_same_record(soa.as_ref(), other.as_ref()),
        _ => false,
    }
}

fn is_same_body(body: &Body, other: &Body) -> bool {
    match (body, other) {
        (Body::Rows(rows), Body::Rows(others)) => is_same_rows(rows, others),
        (Body::NoData(soa), Body::NoData(other)) => is_same_soa(soa, other),
        (Body::Denied(soa), Body::Denied(other)) => is_same_soa(soa, other),
        _ => false,
    }
}

/// Whether each part is equal: owner as spelled, slot, data, lifetime, rank and route. A denial has
/// an SOA.
fn is_same(piece: &Piece, other: &Piece) -> bool {
    piece.owner.octets() == other.owner.octets()
        && piece.slot() == other.slot()
        && is_same_body(&piece.body, &other.body)
        && piece.lifetime == other.lifetime
        && piece.rank == other.rank
        && piece.route == other.route
}

/// Whether a piece's copy equals the piece.
fn is_copied(alloc: Global, piece: &Piece) -> Result<bool, Fail> {
    let copy = piece.copy(alloc)?;
    Ok(is_same(&copy, piece))
}

/// The number of pieces, and the number of equal copies.
fn equal_copies(alloc: Global, pieces: &[Piece]) -> Result<(usize, usize), Fail> {
    let mut equal = 0usize;
    for piece in pieces {
        equal = equal.saturating_add(usize::from(is_copied(alloc, piece)?));
    }
    Ok((pieces.len(), equal))
}

/// The number of a reply's pieces, and the number of equal copies.
fn equal_copies_of(alloc: Global, digits: &str) -> Result<(usize, usize), Fail> {
    let pieces = pieces_of(alloc, digits)?;
    equal_copies(alloc, pieces.as_slice())
}

/// An alias and a set of two addresses, NODATA with an SOA, and a name error with an SOA.
#[test]
fn copies_are_equal_in_each_part(rt: HostRuntime) -> Result<(), Fail> {
    let alloc = rt.alloc();
    let address = equal_copies_of(alloc, ADDRESS)?;
    let sets = equal_copies_of(alloc, ALIAS)?;
    let no_data = equal_copies_of(alloc, NO_DATA)?;
    let name_error = equal_copies_of(alloc, NAME_ERROR)?;
    assert!(rt; (address, sets, no_data, name_error) == ((1, 1), (2, 2), (1, 1), (1, 1)));
    Ok(())
}

/// Whether the piece is the first worked reply's: the address 198.51.100.5 of `a.example`, for 300
/// seconds, of rank 3.
fn is_worked(piece: &Piece) -> bool {
    let is_address = match &piece.body {
        Body::Rows(rows) => match rows.data() {
            DataRef::Row(row) => row.octets() == b"\xc6\x33\x64\x05".as_slice(),
            DataRef::Rows(_) => false,
        },
        _ => false,
    };
    let Slot { class, kind, .. } = piece.slot();
    is_address
        && piece.owner.octets() == b"\x01a\x07example".as_slice()
        && (class, kind) == (1, Some(1))
        && (piece.lifetime, piece.rank, piece.route.place) == (300, 3, 0)
}

/// Offers the cache a copy of the only piece. Returns the number of entries before, the offer's
/// result, the number after, and whether the cache has the worked piece in its slot, accepted at
/// the offer's moment.
fn offered_copy(
    alloc: Global,
    cache: &mut Cache<DefaultHasher>,
    pieces: &[Piece],
) -> Result<(usize, Offered, usize, bool), Fail> {
    let [set] = pieces else {
        return Err(Fail::from("a set alone"));
    };
    let before = cache.len();
    let answer = cache.offer(set.copy(alloc)?, 1020);
    let is_found = match cache.peek(&set.slot()) {
        Some(held) => held.accepted == 1020 && is_worked(&held.piece),
        None => false,
    };
    Ok((before, answer, cache.len(), is_found))
}

/// The result of [`offered_copy`] for a new cache with room for two entries. The cache is
/// forgotten.
fn offered_to_new(alloc: Global, pieces: &[Piece]) -> Result<(usize, Offered, usize, bool), Fail> {
    let mut cache = Cache::new(alloc, 2, DefaultHasher::default())?;
    let offered = offered_copy(alloc, &mut cache, pieces);
    forget(cache);
    offered
}

/// The result of [`offered_copy`] for a new cache and the first worked reply's piece.
fn offered_of_worked(alloc: Global) -> Result<(usize, Offered, usize, bool), Fail> {
    let pieces = pieces_of(alloc, ADDRESS)?;
    offered_to_new(alloc, pieces.as_slice())
}

#[test]
fn a_cache_of_two_keeps_a_copy_of_the_worked_set(rt: HostRuntime) -> Result<(), Fail> {
    assert!(rt; offered_of_worked(rt.alloc())? == (0, Offered::Kept, 1, true));
    Ok(())
}
