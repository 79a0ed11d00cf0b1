//! The data of a record set.

ghost use Rattle.std.specs.Prelude.{◌≡◌, ◌≢◌, ◌∷◌, [], length, IfOk, MatchOption};
ghost use Rattle.dns_message.specs.Borrowed.{data_of};

use dns_message::{DataRef, FewList, PlainList, Rdata};
use std::alloc::{AllocError, Allocator, Global};
use std::marker::Model;

/// The data of a record set, in order: of a single record in place, so that no step to the heap is
/// needed, of more records in a list. Contracts see the list of the data.
#[derive(Drop)]
pub struct Rows<A: Allocator = Global> {
    list: FewList<Rdata<A>, A>,
}

impl<A: Allocator> Model for Rows<A> {
    ghost use Rattle.std.specs.Prelude.{ℕ, List};

    ghost Value = { List (List ℕ) };

    ghost view = { λ r. r.list };
}

impl<A: Allocator + Copy> Rows<A> {
    /// The data of the list. Frees the memory of a list of one.
    pub fn from_list(list: PlainList<Rdata<A>, A>) -> Rows<A>
        ensures { result ≡ list }
    {
        Rows {
            list: FewList::from_vec(list.into_vec()),
        }
    }

    /// Equal data.
    pub fn copy(&self, alloc: A) -> Result<Rows<A>, AllocError>
        ensures { IfOk result (λ copy. copy ≡ self.now) }
    {
        if let Some(one) = self.only() {
            return Ok(Rows {
                list: FewList::one(alloc, one.copy(alloc)?),
            });
        }
        let rows = self.list.in_vec();
        let mut copy = FewList::new(alloc);
        for row in rows {
            copy.push(row.copy(alloc)?)?;
        }
        Ok(Rows { list: copy })
    }
}

impl<A: Allocator> Rows<A> {
    /// How many there are.
    pub fn len(&self) -> usize
        ensures { result ≡ length self.now }
    {
        self.list.len()
    }

    /// The data, borrowed.
    pub fn data(&self) -> DataRef<'_, A>
        ensures { data_of result ≡ self.now }
    {
        match self.only() {
            Some(one) => DataRef::Row(one),
            None => DataRef::Rows(self.list.in_vec()),
        }
    }

    /// The data of a set's only record; `None` for more.
    pub fn only(&self) -> Option<&Rdata<A>>
        ensures { MatchOption result (length self.now ≢ 1) (λ one. self.now ≡ one.now ∷ []) }
    {
        self.list.only()
    }
}
