//! Chains of pieces: aliases, and the piece at their end.

ghost use Rattle.std.specs.Prelude.{◌≡◌, ◌∷◌, ◌++◌, [], IfOk, IsOk};
ghost use Rattle.plain_values.specs.Borrowed.{lent};
ghost use Rattle.alias_chains.specs.Looked.{pieces_in};

use negative_cache::Held;
use std::alloc::{AllocError, Allocator};
use std::slice;

/// Borrowed pieces, in order. One alone does not allocate.
#[derive(Drop)]
pub(crate) enum Chain<'a, A: Allocator> {
    One(&'a Held<A>),
    More(Vec<&'a Held<A>, A>),
}

impl<'a, A: Allocator> Chain<'a, A> {
    /// The aliases, then the piece at their end. Without an alias it does not allocate.
    pub(crate) fn ended(
        aliases: Vec<&'a Held<A>, A>,
        end: &'a Held<A>,
    ) -> Result<Chain<'a, A>, AllocError>
        ensures pieces { IfOk result (λ chain. pieces_in chain ≡ lent aliases.entry.items ++ end.now ∷ []) }
        ensures one { lent aliases.entry.items ≡ [] → IsOk result }
    {
        if aliases.is_empty() {
            return Ok(Chain::One(end));
        }
        let mut pieces = aliases;
        pieces.push(end)?;
        Ok(Chain::More(pieces))
    }

    /// The pieces.
    pub(crate) fn as_slice(&self) -> &[&'a Held<A>]
        ensures { lent result.now ≡ pieces_in self.now }
    {
        match self {
            Chain::One(piece) => slice::from_ref(piece),
            Chain::More(pieces) => pieces,
        }
    }
}

/// Copies of the pieces, with the moments of their acceptance.
pub fn copies<A: Allocator + Copy>(
    alloc: A,
    pieces: &[&Held<A>],
) -> Result<Vec<Held<A>, A>, AllocError>
    ensures { IfOk result (λ copies. copies.items ≡ lent pieces.now) }
{
    let mut copies = Vec::with_capacity(alloc, pieces.len())?;
    for held in pieces {
        copies.push(Held {
            accepted: held.accepted,
            piece: held.piece.copy(alloc)?,
        })?;
    }
    Ok(copies)
}
