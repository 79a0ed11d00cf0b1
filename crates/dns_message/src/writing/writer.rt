//! Octets, written from the front, with pointers to the names in them.

ghost use Rattle.std.specs.Prelude.{◌≡◌, ◌≤◌, ◌<◌, ◌-◌, ◌∷◌, [], ℕ, List, length, OnOk, None, MatchResult};
ghost use Rattle.std.specs.Option.{IfSome};
ghost use Rattle.dns_name.specs.Labels.{labels_of, IsLaidOut};
ghost use Rattle.dns_message.specs.Writing.{as_is, octets16, name_text};
ghost use Rattle.dns_message.specs.Writer.{Writes, IsEmpty, IsKnown, pointer_in};

use crate::names::Fault;
use crate::writing::pointers::Pointers;
use dns_name::split_label;
use std::alloc::{AllocError, Allocator};

/// The text so far.
#[derive(Drop)]
pub(crate) struct Writer<'a, A: Allocator> {
    pub octets: Vec<u8, A>,
    /// The names that begin in the octets.
    pub pointers: Pointers<'a, A>,
}

impl<'a, A: Allocator + Copy> Writer<'a, A> {
    /// Nothing, in an empty vector.
    pub fn new(alloc: A, octets: Vec<u8, A>) -> Writer<'a, A>
        requires { octets.items ≡ [] }
        ensures { IsEmpty result }
    {
        Writer {
            octets,
            pointers: Pointers::new(alloc),
        }
    }

    /// Writes octets with no name in them.
    pub fn put(&mut self, octets: &[u8]) -> Result<(), AllocError>
        ensures { OnOk result (Writes self.old self.new (as_is octets.now)) }
    {
        self.octets.extend_from_slice(octets)?;
        Ok(())
    }

    /// Writes a number. Pushing two octets is faster than copying them.
    pub fn put_u16(&mut self, number: u16) -> Result<(), AllocError>
        ensures { OnOk result (Writes self.old self.new (as_is (octets16 number))) }
    {
        let [high, low] = number.to_be_bytes();
        self.octets.push(high)?;
        self.octets.push(low)?;
        Ok(())
    }

    /// Writes a name, its longest known end as a pointer. The octets before this end are written at
    /// once.
    #[inline(always)]
    pub fn put_later_name(&mut self, name: &'a [u8]) -> Result<(), AllocError>
        requires { IsLaidOut name.now }
        ensures { OnOk result (Writes self.old self.new (name_text (labels_of name.now))) }
    {
        let start = self.octets.len();
        let mut rest = name;
        while let Some((_label, after)) = split_label(rest) {
            let front = name.len() - rest.len();
            if let Some(pointer) = self.pointers.find(rest) {
                self.octets.extend_from_slice(&name[..front])?;
                self.put_u16(pointer)?;
                return Ok(());
            }
            self.pointers.insert(rest, start + front)?;
            rest = after;
        }
        self.octets.extend_from_slice(name)?;
        self.put_u8(0)?;
        Ok(())
    }

    /// Writes the name with these octets, its longest known end as a pointer.
    pub fn put_name(&mut self, name: &'a [u8]) -> Result<(), AllocError>
        requires { IsLaidOut name.now }
        ensures { OnOk result (Writes self.old self.new (name_text (labels_of name.now))) }
    {
        if self.pointers.is_empty() {
            return self.put_first_name(name);
        }
        self.put_later_name(name)
    }

    /// Writes the first name: no end is looked up, since no two ends of a name are equal.
    fn put_first_name(&mut self, name: &'a [u8]) -> Result<(), AllocError>
        requires laid { IsLaidOut name.now }
        requires none { (other : List ℕ) → pointer_in self.old other ≡ None }
        ensures { OnOk result (Writes self.old self.new (name_text (labels_of name.now))) }
    {
        let start = self.octets.len();
        let mut rest = name;
        while let Some((_label, after)) = split_label(rest) {
            let front = name.len() - rest.len();
            self.pointers.insert(rest, start + front)?;
            rest = after;
        }
        self.octets.extend_from_slice(name)?;
        self.put_u8(0)?;
        Ok(())
    }

    /// Writes an octet.
    fn put_u8(&mut self, octet: u8) -> Result<(), AllocError>
        ensures { OnOk result (Writes self.old self.new (as_is (octet ∷ []))) }
    {
        self.octets.push(octet)?;
        Ok(())
    }

    /// The pointer to this name, if any; looked up unless found before.
    pub fn known(&self, name: &[u8], before: Option<u16>) -> Option<u16>
        requires { IfSome before (λ pointer. IsKnown self.now name.now pointer) }
        ensures { IfSome result (λ pointer. IsKnown self.now name.now pointer) }
    {
        if before.is_some() || name.is_empty() {
            return before;
        }
        self.pointers.find(name)
    }

    /// The number of octets left by the limit.
    pub fn room(&self, limit: usize) -> usize
        ensures { result ≡ limit - length self.now.octets.items }
    {
        limit.saturating_sub(self.octets.len())
    }

    /// `TooLarge` if more octets were written than the limit.
    pub fn check(&self, limit: usize) -> Result<(), Fault>
        ensures { MatchResult result (λ _. length self.now.octets.items ≤ limit) (λ fault. (fault ≡ Fault.TooLarge)
            × (limit < length self.now.octets.items)) }
    {
        if self.octets.len() > limit {
            return Err(Fault::TooLarge);
        }
        Ok(())
    }
}
