//! Octets, a few in place, more on the heap.

ghost use Rattle.std.specs.Prelude.{◌≡◌, ◌≤◌, [], length, IfOk, IsOk};

use std::alloc::{AllocError, Allocator, Global};
use std::marker::Model;

/// The number of octets in place: with their count and the mark of the variant they take as many
/// whole words as a vector on the heap.
const FEW: usize = 30;

/// Octets in place, as many as `len` says.
#[derive(Drop)]
struct Few {
    len: u8,
    octets: [u8; FEW],
}

impl Model for Few {
    ghost use Rattle.std.specs.Prelude.{List, ℕ, take, ◌≤◌};

    ghost Value = { List ℕ };

    ghost view = { λ few. take few.len few.octets };

    ghost invariant = { λ few. few.len ≤ 30 };
}

/// The storage of the octets.
#[derive(Drop)]
enum Place<A: Allocator> {
    Here(Few),
    Heap(Vec<u8, A>),
}

/// Immutable octets, in order. Contracts see the list of them.
#[derive(Drop)]
pub struct ShortOctets<A: Allocator = Global> {
    place: Place<A>,
}

impl<A: Allocator> Model for ShortOctets<A> {
    ghost use Rattle.std.specs.Prelude.{List, ℕ};
    ghost use Rattle.plain_values.specs.Places.{octets_at};

    ghost Value = { List ℕ };

    ghost view = { λ o. octets_at o.place };
}

impl<A: Allocator> ShortOctets<A> {
    /// No octets.
    pub fn new() -> ShortOctets<A>
        ensures { result ≡ [] }
    {
        ShortOctets {
            place: Place::Here(Few::copied(&[])),
        }
    }

    /// A copy of the octets. Up to 30 do not allocate.
    pub fn from_slice(alloc: A, octets: &[u8]) -> Result<ShortOctets<A>, AllocError>
        ensures octets { IfOk result (λ copy. copy ≡ octets.now) }
        ensures few { length octets.now ≤ 30 → IsOk result }
    {
        if octets.len() <= FEW {
            return Ok(ShortOctets {
                place: Place::Here(Few::copied(octets)),
            });
        }
        Ok(ShortOctets {
            place: Place::Heap(Vec::from_slice(alloc, octets)?),
        })
    }

    /// The octets of the vector, which keeps them if more than 30.
    pub fn from_vec(octets: Vec<u8, A>) -> ShortOctets<A>
        ensures { result ≡ octets.items }
    {
        if octets.len() <= FEW {
            return ShortOctets {
                place: Place::Here(Few::copied(&octets)),
            };
        }
        ShortOctets {
            place: Place::Heap(octets),
        }
    }

    /// The octets, borrowed.
    pub fn as_slice(&self) -> &[u8]
        ensures { result.now ≡ self.now }
    {
        match &self.place {
            Place::Here(few) => few.as_slice(),
            Place::Heap(octets) => octets.as_slice(),
        }
    }
}

impl Few {
    /// A copy of these octets.
    fn copied(octets: &[u8]) -> Few
        requires { length octets.now ≤ 30 }
        ensures { result ≡ octets.now }
    {
        let mut all = [0u8; FEW];
        all[..octets.len()].copy_from_slice(octets);
        Few {
            len: octets.len() as u8,
            octets: all,
        }
    }

    /// The octets, borrowed.
    fn as_slice(&self) -> &[u8]
        ensures { result.now ≡ self.now }
    {
        &self.octets[..usize::from(self.len)]
    }
}
