//! The records of a piece in an answer, borrowed.

ghost use Rattle.std.specs.Prelude.{◌≡◌, ◌<◌, map, IfOk, Some};
ghost use Rattle.std.specs.List.{flat_map, AllByRecursion};
ghost use Rattle.std.specs.Option.{IfSome};
ghost use Rattle.dns_message.specs.Borrowed.{data_of, records_in};
ghost use Rattle.dns_message.specs.Data.{IsShaped};
ghost use Rattle.record_cache.specs.TrustRank.Values.{unboxed};
ghost use Rattle.answer_builder.specs.Answers.{aged, answers_of, authority_of, rcode_of, record_of, with_ttl};
ghost use Rattle.answer_builder.specs.Answers.{IsEarlier};
ghost use Rattle.answer_builder.specs.Building.{listed};
ghost use Rattle.dns_message.specs.PlainValues.Borrowed.{lent};

use crate::piece_with_ttl::PieceWithTtl;
use dns_message::codes::NXDOMAIN;
use dns_message::{DataRef, Record, RowsRef};
use record_cache::{Body, Held, Piece};
use std::alloc::{AllocError, Allocator};

/// The records of a set; `None` for a denial.
pub(crate) fn set_of<'a, A: Allocator>(pieces: &PieceWithTtl<'a, A>) -> Option<RowsRef<'a, A>>
    ensures { listed result ≡ answers_of pieces.now }
{
    let piece = pieces.piece;
    match (piece.kind, &piece.body) {
        (Some(kind), Body::Rows(rows)) => Some(rows_of(piece, kind, rows.data(), pieces.seconds)),
        _ => None,
    }
}

/// The records of a chain, set after set.
pub(crate) fn sets_of<'a, A: Allocator + Copy>(
    alloc: A,
    chain: &[PieceWithTtl<'a, A>],
) -> Result<Vec<RowsRef<'a, A>, A>, AllocError>
    ensures { IfOk result (λ sets. records_in sets.items ≡ flat_map answers_of chain.now) }
{
    let mut sets = Vec::with_capacity(alloc, chain.len())?;
    for pieces in chain {
        if let Some(set) = set_of(pieces) {
            sets.push(set)?;
        }
    }
    Ok(sets)
}

/// The records of a chain of held pieces, with the seconds that are left of each at a moment, in
/// milliseconds.
pub(crate) fn sets_at<'a, A: Allocator + Copy>(
    alloc: A,
    chain: &[&'a Held<A>],
    moment: u64,
) -> Result<Vec<RowsRef<'a, A>, A>, AllocError>
    requires { AllByRecursion (IsEarlier moment) (lent chain.now) }
    ensures { IfOk result (λ sets. records_in sets.items ≡ flat_map answers_of
        (map (with_ttl moment) (lent chain.now))) }
{
    let mut sets = Vec::with_capacity(alloc, chain.len())?;
    for held in chain {
        if let Some(set) = set_of(&PieceWithTtl::at(held, moment)) {
            sets.push(set)?;
        }
    }
    Ok(sets)
}

/// The SOA of a denial, if any; a set has none.
pub(crate) fn soa_of<'a, A: Allocator>(pieces: &PieceWithTtl<'a, A>) -> Option<RowsRef<'a, A>>
    ensures { listed result ≡ authority_of pieces.now }
{
    let piece = pieces.piece;
    match &piece.body {
        Body::Rows(_) => None,
        Body::NoData(soa) => aged(soa, pieces.seconds),
        Body::Denied(soa) => aged(soa, pieces.seconds),
    }
}

/// The response code of an answer with this piece at its end.
pub(crate) fn rcode_of<A: Allocator>(piece: &Piece<A>) -> u8
    ensures code { result ≡ rcode_of piece.now.body }
    ensures small { result < 16 }
{
    match &piece.body {
        Body::Denied(_) => NXDOMAIN,
        _ => 0,
    }
}

/// The records of a piece of this type with this data.
fn rows_of<'a, A: Allocator>(
    piece: &'a Piece<A>,
    kind: u16,
    rows: DataRef<'a, A>,
    ttl: u32,
) -> RowsRef<'a, A>
    requires { AllByRecursion (IsShaped kind) (data_of rows) }
    ensures { result ≡ map (record_of ttl piece.now kind) (data_of rows.entry) }
{
    RowsRef {
        owner: &piece.owner,
        kind,
        class: piece.class,
        ttl,
        data: rows,
    }
}

/// The SOA as a set of its own, if any.
fn aged<A: Allocator>(soa: &Option<Box<Record<A>, A>>, ttl: u32) -> Option<RowsRef<'_, A>>
    requires { IfSome (unboxed soa.now) (λ r. IsShaped r.kind r.rdata) }
    ensures { listed result ≡ aged ttl (unboxed soa.now) }
{
    match soa {
        None => None,
        Some(soa) => Some(aged_soa(soa.as_ref(), ttl)),
    }
}

/// The SOA as a set of its own.
fn aged_soa<A: Allocator>(soa: &Record<A>, ttl: u32) -> RowsRef<'_, A>
    requires { IsShaped soa.now.kind soa.now.rdata }
    ensures { result ≡ aged ttl (Some soa.now) }
{
    RowsRef {
        owner: &soa.owner,
        kind: soa.kind,
        class: soa.class,
        ttl,
        data: DataRef::Row(&soa.rdata),
    }
}
