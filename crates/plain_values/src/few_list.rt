//! A list of mostly one element, in contracts its elements in order.

ghost use Rattle.std.specs.Prelude.{◌≡◌, ◌≢◌, ◌==◌, ◌∷◌, ◌++◌, [], length, slice_get, MatchOption, None, Some, IsOk};
ghost use Rattle.std.specs.Prelude.{OnOk, OnErr};

use std::alloc::{AllocError, Allocator, Global};
use std::marker::Model;
use std::mem;

/// The room of a list with a second element: two, and some more.
const ROOM: usize = 4;

/// Elements, in order. An only element is in place, so a list of one does not allocate.
#[derive(Drop)]
pub struct FewList<T, A: Allocator = Global> {
    alloc: A,
    listed: Listed<T, A>,
}

/// The place of elements in memory: of a single one in place, of none and of several in a vector.
#[derive(Drop)]
enum Listed<T, A: Allocator> {
    One(T),
    More(Vec<T, A>),
}

impl<T, A: Allocator> Model for FewList<T, A> {
    ghost use Rattle.std.specs.Prelude.{List};
    ghost use Rattle.plain_values.specs.Listed.{listed_in, HasOneInPlace};

    ghost Value = { List T };

    ghost view = { λ list. listed_in list.listed };

    ghost invariant = { λ list. HasOneInPlace list.listed };
}

impl<T: Drop, A: Allocator + Copy> FewList<T, A> {
    /// No elements.
    pub fn new(alloc: A) -> FewList<T, A>
        ensures { result ≡ [] }
    {
        FewList {
            alloc,
            listed: Listed::More(Vec::new(alloc)),
        }
    }

    /// This element alone.
    pub fn one(alloc: A, element: T) -> FewList<T, A>
        ensures { result ≡ element ∷ [] }
    {
        FewList {
            alloc,
            listed: Listed::One(element),
        }
    }

    /// The elements of the vector. Frees the memory of a vector of one.
    pub fn from_vec(elements: Vec<T, A>) -> FewList<T, A>
        ensures { result ≡ elements.items }
    {
        let alloc = *elements.allocator();
        let mut elements = elements;
        if elements.len() == 1 {
            return FewList::one(alloc, elements.swap_remove(0));
        }
        FewList {
            alloc,
            listed: Listed::More(elements),
        }
    }

    /// Puts an element last. The first does not allocate, the second makes room for four.
    pub fn push(&mut self, element: T) -> Result<(), AllocError>
        ensures ok { OnOk result (self.new ≡ self.old ++ element ∷ []) }
        ensures err { OnErr result (self.new ≡ self.old) }
        ensures first { (self.old ≡ []) → IsOk result }
    {
        if self.is_empty() {
            self.listed = Listed::One(element);
            return Ok(());
        }
        if let Listed::More(elements) = &mut self.listed {
            elements.push(element)?;
            return Ok(());
        }
        self.push_second(element)
    }
}

impl<T, A: Allocator> FewList<T, A> {
    /// The number of elements.
    pub fn len(&self) -> usize
        ensures { result ≡ length self.now }
    {
        match &self.listed {
            Listed::One(_) => 1,
            Listed::More(elements) => elements.len(),
        }
    }

    /// Whether there are no elements.
    pub fn is_empty(&self) -> bool
        ensures { result ≡ (length self.now == 0) }
    {
        self.len() == 0
    }

    /// The element at this place, from 0; `None` after the last.
    pub fn get(&self, place: usize) -> Option<&T>
        ensures { MatchOption result (slice_get self.now place ≡ None)
            (λ element. slice_get self.now place ≡ Some element.now) }
    {
        match &self.listed {
            Listed::One(element) if place == 0 => Some(element),
            Listed::One(_) => None,
            Listed::More(elements) => elements.get(place),
        }
    }

    /// The only element; `None` for none and for several.
    pub fn only(&self) -> Option<&T>
        ensures { MatchOption result (length self.now ≢ 1) (λ one. self.now ≡ one.now ∷ []) }
    {
        match &self.listed {
            Listed::One(element) => Some(element),
            Listed::More(_) => None,
        }
    }

    /// The elements in the vector: none if there is an only one, otherwise all.
    pub fn in_vec(&self) -> &[T]
        ensures one { length self.now ≡ 1 → result.now ≡ [] }
        ensures all { length self.now ≢ 1 → result.now ≡ self.now }
    {
        match &self.listed {
            Listed::One(_) => &[],
            Listed::More(elements) => elements.as_slice(),
        }
    }
}

impl<T: Drop, A: Allocator + Copy> FewList<T, A> {
    /// Puts an element after the only one.
    fn push_second(&mut self, element: T) -> Result<(), AllocError>
        requires { length self.old ≡ 1 }
        ensures ok { OnOk result (self.new ≡ self.old ++ element ∷ []) }
        ensures err { OnErr result (self.new ≡ self.old) }
    {
        let mut elements = Vec::with_capacity(self.alloc, ROOM)?;
        let none = Listed::More(Vec::new(self.alloc));
        if let Listed::One(first) = mem::replace(&mut self.listed, none) {
            elements.push_reserved(first);
        }
        elements.push_reserved(element);
        self.listed = Listed::More(elements);
        Ok(())
    }
}
