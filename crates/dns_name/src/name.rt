//! Names: their parts and their comparison.

ghost use Rattle.std.specs.Prelude.{◌≡◌, ◌≤◌, ◌+◌, ◌∷◌, ◌++◌, [], length, map, OnOk, OnErr, IsTrue, ◌↔◌, IfOk, IsOk};
ghost use Rattle.std.specs.Prelude.{MatchResult, Some, None};
ghost use Rattle.dns_name.specs.Labels.{IsLabel, IsName, IsSame, IsUnder, size_of, label_octets, labels_of, IsLaidOut};
ghost use Rattle.dns_name.specs.Labels.{lowered, parent_of};
ghost use Rattle.dns_name.specs.Faults.{Gives, first_fault, label_fault, named, pushed};

use crate::builder::NameBuilder;
use crate::fault::NameFault;
use crate::key::{NameKey, is_same_text, key_of};
use crate::labels::{Labels, labels_in, split_label};
use plain_values::ShortOctets;
use std::alloc::{AllocError, Allocator, Global};
use std::marker::Model;

/// A domain name (RFC 1035 2.3.4, 3.1): labels of 1 to 63 octets, at most 255 octets in all with
/// each label's length octet and the final zero. Up to 30 octets, without the final zero, are in
/// place. Contracts see the list of labels.
#[derive(Drop)]
pub struct Name<A: Allocator = Global> {
    octets: ShortOctets<A>,
}

impl<A: Allocator> Model for Name<A> {
    ghost use Rattle.std.specs.Prelude.{List, ℕ};
    ghost use Rattle.dns_name.specs.Labels.{labels_of, IsLaidOut};

    ghost Value = { List (List ℕ) };

    ghost view = { λ n. labels_of n.octets };

    ghost invariant = { λ n. IsLaidOut n.octets };
}

impl<A: Allocator> Name<A> {
    /// The root, which has no label.
    pub fn root() -> Name<A>
        ensures { result ≡ [] }
    {
        Name {
            octets: ShortOctets::new(),
        }
    }

    /// The name with these octets, in the form of `octets`: each label after its length, without
    /// the final zero. They are copied once. Up to 30 do not allocate; for more,
    pub fn from_octets(alloc: A, octets: &[u8]) -> Result<Name<A>, AllocError>
        requires { IsLaidOut octets.now }
        ensures name { IfOk result (λ name. name ≡ labels_of octets.now) }
        ensures few { length octets.now ≤ 30 → IsOk result }
    {
        Ok(Name {
            octets: ShortOctets::from_slice(alloc, octets)?,
        })
    }

    /// The labels from left to right, at most 127.
    pub fn labels(&self) -> Labels<'_>
        ensures labels { result ≡ self.now }
        ensures name { IsName self.now }
        ensures few { length self.now ≤ 127 }
    {
        labels_in(self.octets())
    }

    /// The name as in a message (RFC 1035 3.1), without the final zero: each label after its
    /// length. `split_label` takes the first label off.
    pub fn octets(&self) -> &[u8]
        ensures laid { IsLaidOut result.now }
        ensures labels { labels_of result.now ≡ self.now }
        ensures size { length result.now + 1 ≡ size_of self.now }
    {
        self.octets.as_slice()
    }

    /// Whether the names have equal labels, ASCII letter case aside (RFC 1035 2.3.3).
    #[tactic(auto, using(crate::proofs::LabelLaws::laid_short))]
    pub fn same(&self, other: &Name<A>) -> bool
        ensures { IsTrue result ↔ IsSame self.now other.now }
    {
        is_same_text(self.octets(), other.octets())
    }
}

impl<A: Allocator> Name<A> {
    /// The name of these labels, from left to right.
    ///
    /// The fault is the first `EmptyLabel` or `LabelLong` from the left, otherwise `NameLong`.
    /// `Memory` if memory ran out.
    pub fn from_labels(alloc: A, labels: &[Vec<u8, A>]) -> Result<Name<A>, NameFault>
        ensures { Gives (λ n. n) result (named (map (λ v. v.items) labels.now)) }
    {
        check_labels(labels)?;
        let mut builder = NameBuilder::new();
        for label in labels {
            builder.push(label)?;
        }
        Ok(builder.name(alloc)?)
    }
}

/// Whether a name is at or below `suffix`, both as octets in the form of `Name::octets`:
/// `Name::is_under` without a `Name`.
pub fn ends_in(octets: &[u8], suffix: &[u8]) -> bool
    requires whole { IsLaidOut octets.now }
    requires suffix_whole { IsLaidOut suffix.now }
    ensures { IsTrue result ↔ IsUnder (labels_of octets.now) (labels_of suffix.now) }
{
    let mut rest = octets;
    while rest.len() > suffix.len() {
        match split_label(rest) {
            None => return false,
            Some((_, after)) => rest = after,
        }
    }
    rest.eq_ignore_ascii_case(suffix)
}

impl<A: Allocator> Name<A> {
    /// Whether this name ends in the labels of `suffix`, ASCII letter case aside; so each name is
    /// under itself and under the root. The octets are compared once.
    pub fn is_under(&self, suffix: &Name<A>) -> bool
        ensures { IsTrue result ↔ IsUnder self.now suffix.now }
    {
        ends_in(self.octets(), suffix.octets())
    }

    /// The key of this name: keys are equal exactly if names are, letter case aside.
    pub fn key(&self) -> NameKey
        ensures { result ≡ lowered self.now }
    {
        key_of(self.octets())
    }

    /// The name without its first label; `None` for the root, without an allocation.
    pub fn parent(&self, alloc: A) -> Result<Option<Name<A>>, AllocError>
        ensures parent { IfOk result (λ p. p ≡ parent_of self.now) }
        ensures root { OnErr result (self.now ≡ [] → ⊥) }
    {
        match split_label(self.octets()) {
            None => Ok(None),
            Some((_, rest)) => Ok(Some(Name::from_octets(alloc, rest)?)),
        }
    }

    /// An equal name, letter case included. Up to 31 octets, with the final zero, do not allocate;
    /// for more,
    pub fn copy(&self, alloc: A) -> Result<Name<A>, AllocError>
        ensures name { IfOk result (λ n. n ≡ self.now) }
        ensures few { size_of self.now ≤ 31 → IsOk result }
    {
        Name::from_octets(alloc, self.octets())
    }
}

/// The first fault of a label, from the left.
fn check_labels<A: Allocator>(labels: &[Vec<u8, A>]) -> Result<(), NameFault>
    ensures { MatchResult result (λ _. first_fault label_fault (map (λ v. v.items) labels.now) ≡ None)
        (λ e. first_fault label_fault (map (λ v. v.items) labels.now) ≡ Some e) }
{
    for label in labels {
        if label.is_empty() {
            return Err(NameFault::EmptyLabel);
        }
        if label.len() > 63 {
            return Err(NameFault::LabelLong);
        }
    }
    Ok(())
}
