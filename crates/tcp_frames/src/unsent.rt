//! Octets for a slow stream.

ghost use Rattle.std.specs.Prelude.{◌≡◌, ◌==◌, ◌≤◌, ◌++◌, [], length, OnOk, OnErr};
ghost use Rattle.tcp_frames.specs.Unsent.{pushed, sent};

use plain_values::Octets;
use std::alloc::{AllocError, Allocator};
use std::marker::Model;

/// The octets that a stream has not yet taken, in order. Contracts see these octets, and the number
/// of taken octets still in memory.
#[derive(Drop)]
pub struct Unsent<A: Allocator> {
    alloc: A,
    octets: Vec<u8, A>,
    /// The number of taken octets in memory.
    taken: usize,
}

impl<A: Allocator> Model for Unsent<A> {
    ghost use Rattle.std.specs.Prelude.{◌≤◌, drop, length};
    ghost use Rattle.tcp_frames.specs.Unsent.{Keeping};

    ghost Value = { Keeping };

    ghost view = { λ u. record { left = drop u.taken u.octets.items; taken = u.taken } };

    ghost invariant = { λ u. u.taken ≤ length u.octets.items };
}

impl<A: Allocator + Copy> Unsent<A> {
    /// No octets.
    pub fn new(alloc: A) -> Unsent<A>
        ensures { result ≡ record { left = []; taken = 0 } }
    {
        Unsent {
            alloc,
            octets: Vec::new(alloc),
            taken: 0,
        }
    }

    /// Whether there are none.
    pub fn is_empty(&self) -> bool
        ensures { result ≡ (length self.now.left == 0) }
    {
        self.len() == 0
    }

    /// The number of octets.
    pub fn len(&self) -> usize
        ensures { result ≡ length self.now.left }
    {
        self.octets.len() - self.taken
    }

    /// Puts octets last. Afterwards at most as many taken octets are in memory as are left, so a
    /// slow stream keeps little; and at most as many octets are copied as the stream took.
    pub fn push(&mut self, more: Octets<A>) -> Result<(), AllocError>
        ensures ok { OnOk result (self.new ≡ pushed more self.old) }
        ensures few { OnOk result (self.new.taken ≤ length self.new.left) }
        ensures err { OnErr result (self.new ≡ self.old) }
    {
        if self.taken >= self.octets.len() {
            self.octets = more.into_vec();
            self.taken = 0;
            return Ok(());
        }
        if self.taken > self.len() {
            return self.push_anew(more.as_slice());
        }
        self.octets.extend_from_slice(more.as_slice())?;
        Ok(())
    }

    /// Puts octets last, after a copy of the octets left.
    fn push_anew(&mut self, more: &[u8]) -> Result<(), AllocError>
        ensures ok { OnOk result (self.new ≡ record { left = self.old.left ++ more.now; taken = 0 }) }
        ensures err { OnErr result (self.new ≡ self.old) }
    {
        let mut octets = Vec::with_capacity(self.alloc, self.len() + more.len())?;
        octets.extend_from_slice(&self.octets[self.taken..])?;
        octets.extend_from_slice(more)?;
        self.octets = octets;
        self.taken = 0;
        Ok(())
    }

    /// Returns the octets, to be offered to the stream.
    pub fn octets(&self) -> &[u8]
        ensures { result.now ≡ self.now.left }
    {
        &self.octets[self.taken..]
    }

    /// Leaves out the first octets, as many as the stream took.
    pub fn leave_out(&mut self, count: usize)
        requires { count ≤ length self.old.left }
        ensures { self.new ≡ sent count self.old }
    {
        self.taken += count;
        if self.taken >= self.octets.len() {
            self.octets = Vec::new(self.alloc);
            self.taken = 0;
        }
    }
}
