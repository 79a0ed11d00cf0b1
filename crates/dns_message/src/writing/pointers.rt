//! The names that begin in octets, each with its first place.

ghost use Rattle.std.specs.Prelude.{◌≡◌, ℕ, List, None, OnOk, IsTrue};
ghost use Rattle.std.specs.Ordering.{nat_cmp};
ghost use Rattle.std.specs.Cmp.Lexicographic.{slice_cmp};
ghost use Rattle.std.specs.BTreeMap.{get_by};
ghost use Rattle.dns_message.specs.Writer.{pointer_among, pointer_known, IsPointed, IsPutIn};

use arrayvec::ArrayVec;
use std::alloc::{AllocError, Allocator};
use std::collections::BTreeMap;

/// The number of names found one by one, without allocating; further names are found by a map.
const FEW: usize = 16;

/// The last offset within a pointer's 14 bits (RFC 1035 4.1.4).
const LAST_PLACE: usize = 16383;

/// The two high bits of a pointer.
const POINTER: u16 = 0xC000;

/// Names, each without its zero octet, and a pointer to the first place of each.
#[derive(Drop)]
pub(crate) struct Pointers<'a, A: Allocator> {
    few: ArrayVec<(&'a [u8], u16), FEW>,
    many: BTreeMap<&'a [u8], u16, A>,
}

impl<'a, A: Allocator + Copy> Pointers<'a, A> {
    /// No names.
    pub fn new(alloc: A) -> Pointers<'a, A>
        ensures { (name : List ℕ) → pointer_known result name ≡ None }
    {
        Pointers {
            few: ArrayVec::new(),
            many: BTreeMap::new(alloc),
        }
    }

    /// The pointer to a name, letter case included. The map is mostly empty.
    #[inline(always)]
    pub fn find(&self, name: &[u8]) -> Option<u16>
        ensures { result ≡ pointer_known self.now name.now }
    {
        if let Some(pointer) = pointer_among(self.few.as_slice(), name) {
            return Some(pointer);
        }
        if self.many.is_empty() {
            return None;
        }
        self.find_in_map(name)
    }

    /// The pointer to a name in the map.
    #[cold]
    #[inline(never)]
    fn find_in_map(&self, name: &[u8]) -> Option<u16>
        ensures { result ≡ get_by (λ k. slice_cmp nat_cmp name.now k.now) self.now.many }
    {
        self.many.get(name).copied()
    }

    /// Whether no name is known.
    pub fn is_empty(&self) -> bool
        ensures { IsTrue result → (name : List ℕ) → pointer_known self.now name ≡ None }
    {
        self.few.is_empty() && self.many.is_empty()
    }

    /// Remembers that a new name begins at this offset, within a pointer's reach. Allocates once
    /// there are more than a few names.
    pub fn insert(&mut self, name: &'a [u8], offset: usize) -> Result<(), AllocError>
        requires { pointer_known self.old name.now ≡ None }
        ensures { OnOk result (IsPutIn self.old self.new name.now offset) }
    {
        if offset > LAST_PLACE {
            return Ok(());
        }
        let pointer = POINTER + offset as u16;
        if self.few.is_full() {
            self.insert_in_map(name, pointer)?;
            return Ok(());
        }
        self.few.push((name, pointer));
        Ok(())
    }

    /// Remembers the pointer to a new name in the map.
    #[cold]
    #[inline(never)]
    fn insert_in_map(&mut self, name: &'a [u8], pointer: u16) -> Result<(), AllocError>
        requires { pointer_known self.old name.now ≡ None }
        ensures { OnOk result (IsPointed self.old self.new name.now pointer) }
    {
        self.many.insert(name, pointer)?;
        Ok(())
    }
}

/// The pointer next to a name.
fn pointer_among(few: &[(&[u8], u16)], name: &[u8]) -> Option<u16>
    ensures { result ≡ pointer_among few.now name.now }
{
    for (known, pointer) in few {
        if *known == name {
            return Some(*pointer);
        }
    }
    None
}
