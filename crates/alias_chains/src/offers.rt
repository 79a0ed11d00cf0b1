//! The pieces of an accepted reply, as entries of the cache.

ghost use Rattle.std.specs.Prelude.{◌≡◌, ◌<◌, ◌^◌, ◌++◌, if◌then◌else◌, Bool, List, map, length, IfOk};
ghost use Rattle.std.specs.List.{AllByRecursion};
ghost use Rattle.answer_builder.specs.Answers.{IsEarlier};
ghost use Rattle.trust_rank.specs.Replacing.{is_name_error};
ghost use Rattle.alias_chains.specs.Offering.{shown_by, ended_so, put, put_all, unkept_of, count_of, held_at};
ghost use Rattle.alias_chains.specs.Offering.{pieces_of};

use negative_cache::{Cache, Held, Offered, shown};
use plain_values::PlainList;
use std::alloc::{AllocError, Allocator};
use std::hash::BuildHasher;
use trust_rank::Piece;

/// The pieces of a reply, as held from this moment on, in milliseconds: those of its walk, then the
/// name servers of its authority section.
pub fn held_from<A: Allocator + Copy>(
    alloc: A,
    pieces: PlainList<Piece<A>, A>,
    authority: PlainList<Piece<A>, A>,
    moment: u64,
) -> Result<Vec<Held<A>, A>, AllocError>
    ensures held { IfOk result (λ held. held.items ≡ map (held_at moment) (pieces ++ authority)) }
    ensures earlier { IfOk result (λ held. AllByRecursion (IsEarlier moment) held.items) }
{
    let mut held = Vec::new(alloc);
    push_held(&mut held, pieces, moment)?;
    push_held(&mut held, authority, moment)?;
    Ok(held)
}

/// Offers the pieces of entries in order, at this moment in milliseconds. Returns how many of them
/// found no memory.
pub fn offer_all<H: BuildHasher + Drop, A: Allocator + Copy>(
    cache: &mut Cache<H, A>,
    held: Vec<Held<A>, A>,
    moment: u64,
) -> u32
    requires few { length held.items < 2 ^ 32 }
    ensures { (rooms : List Bool) × (length rooms ≡ length held.items)
        × (cache.new ≡ record cache.old {
          entries = put_all cache.old.capacity moment rooms
              (pieces_of held.items) cache.old.entries;
        })
        × (result ≡ unkept_of cache.old.capacity moment rooms (pieces_of held.items) cache.old.entries) }
{
    let mut unkept = 0;
    for entry in held {
        unkept += u32::from(offer(cache, entry.piece, moment));
    }
    unkept
}

/// Puts pieces last, as they are held from this moment on.
fn push_held<A: Allocator + Copy>(
    held: &mut Vec<Held<A>, A>,
    pieces: PlainList<Piece<A>, A>,
    moment: u64,
) -> Result<(), AllocError>
    ensures { IfOk result (λ _. held.new.items ≡ held.old.items ++ map (held_at moment) pieces) }
{
    held.reserve(pieces.as_slice().len())?;
    for piece in pieces.into_vec() {
        held.push(Held {
            piece,
            accepted: moment,
        })?;
    }
    Ok(())
}

/// Offers a piece, at this moment in milliseconds. True if it found no memory.
fn offer<H: BuildHasher + Drop, A: Allocator + Copy>(
    cache: &mut Cache<H, A>,
    piece: Piece<A>,
    moment: u64,
) -> bool
    ensures { (room : Bool) × (cache.new
        ≡ record cache.old { entries = put cache.old.capacity moment room piece cache.old.entries })
        × ((if result then 1 else 0) ≡ count_of (ended_so moment room piece cache.old.entries)) }
{
    show(cache, &piece);
    matches!(cache.offer(piece, moment), Offered::Unkept)
}

/// Removes the name errors that a piece shows to be wrong. Only a set or NODATA does (RFC 8020 2).
fn show<H: BuildHasher + Drop, A: Allocator + Copy>(cache: &mut Cache<H, A>, piece: &Piece<A>)
    ensures { cache.new ≡ record cache.old { entries = shown_by piece.now cache.old.entries } }
{
    if piece.kind.is_some() {
        shown(cache, &piece.owner, piece.class);
    }
}
