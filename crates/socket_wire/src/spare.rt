//! Memory for the octets of datagrams.

ghost use Rattle.std.specs.Prelude.{◌≡◌, IfOk};

use plain_values::{Octets, PlainList};
use std::alloc::{AllocError, Allocator};
use std::marker::Model;
use std::mem;

/// Memory of served octets, kept for the next. Contracts see nothing of it.
#[derive(Drop)]
pub(crate) struct Spare<A: Allocator> {
    memory: Vec<u8, A>,
}

impl<A: Allocator> Model for Spare<A> {
    ghost Value = { Unit {0} };

    ghost view = { λ _. tt };
}

impl<A: Allocator + Copy> Spare<A> {
    /// Starts with no memory.
    pub fn new(alloc: A) -> Spare<A> {
        Spare {
            memory: Vec::new(alloc),
        }
    }

    /// Copies octets into the kept memory, if large enough.
    pub fn copied(&mut self, alloc: A, octets: &[u8]) -> Result<Octets<A>, AllocError>
        ensures { IfOk result (λ copied. copied ≡ octets.now) }
    {
        let mut memory = mem::replace(&mut self.memory, Vec::new(alloc));
        memory.clear();
        memory.extend_from_slice(octets)?;
        Ok(PlainList::from_vec(memory))
    }

    /// Keeps the memory of served octets, in place of the kept memory.
    pub fn keep(&mut self, alloc: A, octets: &mut Octets<A>) {
        self.memory = mem::replace(octets, PlainList::new(alloc)).into_vec();
    }
}
