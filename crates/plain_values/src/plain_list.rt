//! A list, in contracts its elements in order, without capacity and allocator.

ghost use Rattle.std.specs.Prelude.{◌≡◌, ◌<◌, ◌∷◌, ◌++◌, [], List, OnOk, OnErr, IfOk};

use std::alloc::{AllocError, Allocator, Global};
use std::marker::Model;

/// Elements on the heap, in order. Made from a `Vec` and turned back into a `Vec` without
/// allocating.
#[derive(Drop)]
pub struct PlainList<T, A: Allocator = Global> {
    items: Vec<T, A>,
}

/// Octets on the heap.
pub type Octets<A> = PlainList<u8, A>;

impl<T, A: Allocator> Model for PlainList<T, A> {
    ghost use Rattle.std.specs.Prelude.{List};

    ghost Value = { List T };

    ghost view = { λ list. list.items.items };
}

impl<T, A: Allocator> PlainList<T, A> {
    /// No elements.
    pub fn new(alloc: A) -> PlainList<T, A>
        ensures { result ≡ [] }
    {
        PlainList {
            items: Vec::new(alloc),
        }
    }

    /// The elements of the `Vec`.
    pub fn from_vec(items: Vec<T, A>) -> PlainList<T, A>
        ensures { result ≡ items.items }
    {
        PlainList { items }
    }

    /// The `Vec` of these elements.
    pub fn into_vec(self) -> Vec<T, A>
        ensures { result.items ≡ self }
    {
        let PlainList { items } = self;
        items
    }

    /// The elements, borrowed.
    pub fn as_slice(&self) -> &[T]
        ensures { result.now ≡ self.now }
    {
        self.items.as_slice()
    }
}

impl<T: Drop, A: Allocator> PlainList<T, A> {
    /// Puts an element last.
    pub fn push(&mut self, element: T) -> Result<(), AllocError>
        ensures ok { OnOk result (self.new ≡ self.old ++ element ∷ []) }
        ensures err { OnErr result (self.new ≡ self.old) }
    {
        self.items.push(element)?;
        Ok(())
    }
}

impl<T: Copy, A: Allocator> PlainList<T, A> {
    /// The elements of the slice, copied.
    pub fn copied(alloc: A, from: &[T]) -> Result<PlainList<T, A>, AllocError>
        ensures { IfOk result (λ list. list ≡ from.now) }
    {
        Ok(PlainList {
            items: Vec::from_slice(alloc, from)?,
        })
    }
}
