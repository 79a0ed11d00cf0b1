//! Pieces with their seconds in an answer.

ghost use Rattle.std.specs.Prelude.{◌≡◌, ◌≤◌, ◌++◌, length, map, IfOk, OnOk};
ghost use Rattle.std.specs.List.{AllByRecursion};
ghost use Rattle.record_cache.specs.Ageing.{seconds_left};
ghost use Rattle.answer_builder.specs.Answers.{with_ttl, with_stale_ttl, with_stale_ttls, IsEarlier};
ghost use Rattle.answer_builder.specs.Building.{end_of};
ghost use Rattle.dns_message.specs.PlainValues.Borrowed.{lent};

use record_cache::{Held, Piece};
use std::alloc::{AllocError, Allocator, Global};
use std::marker::Model;

/// The TTL of a stale piece, in seconds (RFC 8767 4).
const STALE: u32 = 30;

/// A borrowed piece, and its seconds in an answer. Contracts see a `PieceWithTtl`.
#[derive(Drop)]
pub struct PieceWithTtl<'a, A: Allocator = Global> {
    pub piece: &'a Piece<A>,
    /// The TTL of all records.
    pub seconds: u32,
}

impl<'a, A: Allocator> Model for PieceWithTtl<'a, A> {
    ghost use Rattle.answer_builder.specs.Values.{PieceWithTtl};

    ghost Value = { PieceWithTtl };

    ghost view = { λ t. record { piece = t.piece.now; seconds = t.seconds } };
}

impl<'a, A: Allocator> PieceWithTtl<'a, A> {
    /// A held piece, with the whole seconds left at a moment, in milliseconds, not before its
    /// acceptance; 0 if expired (RFC 1035 3.2.1).
    pub fn at(held: &'a Held<A>, moment: u64) -> PieceWithTtl<'a, A>
        requires { held.now.accepted ≤ moment }
        ensures { result ≡ with_ttl moment held.now }
    {
        PieceWithTtl {
            piece: &held.piece,
            seconds: ttl_of(held, moment),
        }
    }

    /// A held piece with its seconds left, or 30 seconds if expired (RFC 8767 4).
    pub fn stale(held: &'a Held<A>, moment: u64) -> PieceWithTtl<'a, A>
        requires { held.now.accepted ≤ moment }
        ensures { result ≡ with_stale_ttl moment held.now }
    {
        if held.is_alive(moment) {
            return PieceWithTtl::at(held, moment);
        }
        PieceWithTtl {
            piece: &held.piece,
            seconds: STALE,
        }
    }
}

/// The whole seconds left of a piece at a moment, in milliseconds, as the TTL of its records.
fn ttl_of<A: Allocator>(held: &Held<A>, moment: u64) -> u32
    requires { held.now.accepted ≤ moment }
    ensures { result ≡ seconds_left moment held.now }
{
    let left = held.seconds_left(moment);
    prove!(left <= u64::from(held.piece.lifetime));
    left as u32
}

/// Pieces with what is left of them at a moment, in milliseconds; those from index `stale_from` on
/// that have expired are stale (RFC 8767 4).
pub(crate) fn with_stale_ttls<'a, A: Allocator + Copy>(
    alloc: A,
    chain: &'a [Held<A>],
    stale_from: usize,
    moment: u64,
) -> Result<Vec<PieceWithTtl<'a, A>, A>, AllocError>
    requires within { stale_from ≤ length chain.now }
    requires earlier { AllByRecursion (IsEarlier moment) chain.now }
    ensures { IfOk result (λ pieces. pieces.items ≡ with_stale_ttls stale_from moment chain.now) }
{
    let (before, after) = chain.split_at(stale_from);
    let mut pieces = Vec::with_capacity(alloc, chain.len())?;
    add_left(&mut pieces, before, moment)?;
    add_stale(&mut pieces, after, moment)?;
    Ok(pieces)
}

/// Adds pieces with their seconds left at a moment, in milliseconds.
fn add_left<'a, A: Allocator + Copy>(
    pieces: &mut Vec<PieceWithTtl<'a, A>, A>,
    chain: &'a [Held<A>],
    moment: u64,
) -> Result<(), AllocError>
    requires { AllByRecursion (IsEarlier moment) chain.now }
    ensures { OnOk result (pieces.new.items ≡ pieces.old.items ++ map (with_ttl moment) chain.now) }
{
    for held in chain {
        pieces.push(PieceWithTtl::at(held, moment))?;
    }
    Ok(())
}

/// Adds pieces at a moment, in milliseconds; expired ones are stale.
fn add_stale<'a, A: Allocator + Copy>(
    pieces: &mut Vec<PieceWithTtl<'a, A>, A>,
    chain: &'a [Held<A>],
    moment: u64,
) -> Result<(), AllocError>
    requires { AllByRecursion (IsEarlier moment) chain.now }
    ensures { OnOk result (pieces.new.items ≡ pieces.old.items ++ map (with_stale_ttl moment) chain.now) }
{
    for held in chain {
        pieces.push(PieceWithTtl::stale(held, moment))?;
    }
    Ok(())
}

/// The last of borrowed pieces, if any, with its seconds left at a moment, in milliseconds.
pub(crate) fn last_at<'a, A: Allocator>(
    chain: &[&'a Held<A>],
    moment: u64,
) -> Option<PieceWithTtl<'a, A>>
    requires { AllByRecursion (IsEarlier moment) (lent chain.now) }
    ensures { result ≡ end_of (map (with_ttl moment) (lent chain.now)) }
{
    match chain.last() {
        None => None,
        Some(held) => Some(PieceWithTtl::at(held, moment)),
    }
}
