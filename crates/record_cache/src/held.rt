//! An entry of the cache.

ghost use Rattle.std.specs.Prelude.{◌≡◌, ◌≤◌, ◌<◌, ◌*◌, ◌==◌, ◌&&◌, nat_lt};
ghost use Rattle.record_cache.specs.Ageing.{is_alive, seconds_left};
ghost use Rattle.record_cache.specs.Storing.{AreFew, marks_of};
ghost use Rattle.trust_rank.specs.Formed.{IsPiece};
ghost use Rattle.trust_rank.specs.Replacing.{is_name_error};

use crate::counts::Marks;
use crate::endings::ending;
use std::alloc::{Allocator, Global};
use std::marker::Model;
use trust_rank::types::CNAME;
use trust_rank::{Piece, Slot};

/// A piece, and the moment of its acceptance.
#[derive(Drop)]
pub struct Held<A: Allocator = Global> {
    /// The moment of acceptance, in milliseconds.
    pub accepted: u64,
    /// The piece.
    pub piece: Piece<A>,
}

impl<A: Allocator> Model for Held<A> {
    ghost use Rattle.record_cache.specs.Values.{Held};

    ghost Value = { Held };

    ghost view = { λ h. record { piece = h.piece; accepted = h.accepted } };
}

impl<A: Allocator> Held<A> {
    /// Whether the entry is alive at a moment, in milliseconds: its lifetime, in seconds, since
    /// acceptance has not passed (RFC 1035 3.2.1).
    pub fn is_alive(&self, moment: u64) -> bool
        ensures { result ≡ is_alive moment self.now }
    {
        match moment.checked_sub(self.accepted) {
            Some(age) => age < self.lifetime_ms(),
            None => true,
        }
    }

    /// The whole seconds left of the entry at a moment, in milliseconds, not before its acceptance;
    /// 0 for an expired entry.
    pub fn seconds_left(&self, moment: u64) -> u64
        requires { self.now.accepted ≤ moment }
        ensures { result ≡ seconds_left moment self.now }
    {
        let age = moment - self.accepted;
        self.lifetime_ms().saturating_sub(age) / 1000
    }

    /// Whether this is a name error, the denial of a whole name (RFC 2308 2.1).
    pub(crate) fn is_name_error(&self) -> bool
        ensures { result ≡ is_name_error self.now.piece }
    {
        self.piece.kind.is_none()
    }

    /// Whether the lifetime is 0.
    pub(crate) fn has_no_lifetime(&self) -> bool
        ensures { result ≡ (self.now.piece.lifetime == 0) }
    {
        self.piece.lifetime == 0
    }

    /// Whether the entry is alive at the acceptance of `other`, and has a higher rank (RFC 2181
    /// 5.4.1).
    pub(crate) fn outranks(&self, other: &Held<A>) -> bool
        ensures { result ≡ (is_alive other.now.accepted self.now && nat_lt other.now.piece.rank self.now.piece.rank) }
    {
        self.is_alive(other.accepted) && other.piece.rank < self.piece.rank
    }

    /// The slot of the entry. The clause `formed` repeats the facts about each piece.
    pub(crate) fn slot(&self) -> Slot
        ensures slot { result ≡ self.now.piece.slot }
        ensures formed { IsPiece self.now.piece }
    {
        self.piece.slot()
    }

    /// The numbers for counting the entry.
    pub(crate) fn marks(&self) -> Marks
        ensures marks { result ≡ marks_of self.now.piece.slot }
        ensures few { AreFew result }
    {
        let octets = self.piece.owner.octets();
        match self.piece.kind {
            None => Marks {
                size: Some(octets.len()),
                ending: Some(ending(octets)),
                alias: None,
            },
            Some(CNAME) => Marks {
                size: None,
                ending: None,
                alias: Some(ending(octets)),
            },
            Some(_) => Marks {
                size: None,
                ending: None,
                alias: None,
            },
        }
    }

    /// The lifetime in milliseconds.
    fn lifetime_ms(&self) -> u64
        ensures { result ≡ 1000 * self.now.piece.lifetime }
    {
        1000 * u64::from(self.piece.lifetime)
    }
}
