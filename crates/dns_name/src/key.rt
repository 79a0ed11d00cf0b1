//! Names as keys of fixed size.

ghost use Rattle.std.specs.Prelude.{◌≡◌, ◌≤◌, ◌↔◌, ◌++◌, IsTrue, length, map, drop};
ghost use Rattle.std.specs.Char.{to_ascii_lowercase};
ghost use Rattle.dns_name.specs.Key.{end_of_words, padded};
ghost use Rattle.dns_name.specs.Labels.{labels_of, IsLaidOut, IsUnder, lowered, parent_of};

use crate::labels::{Labels, labels_in, split_label};
use crate::name::{Name, ends_in};
use std::alloc::Allocator;
use std::hash::{Hash, Hasher};
use std::marker::Model;

/// A name for comparing and hashing: its octets as in a message (RFC 1035 3.1), with the final
/// zero, and ASCII letters in lower case, then zeros up to 255 octets. Contracts see the labels in
/// lower case, so keys are equal exactly if their names are.
#[derive(Clone, Copy, Eq, PartialOrd, Ord)]
#[tactic(auto, using(crate::specs::KeyLaws::padded_back, crate::specs::KeyLaws::size_back))]
pub struct NameKey {
    octets: [u8; 255],
    len: u8,
}

impl Model for NameKey {
    ghost use Rattle.std.specs.Prelude.{List, ℕ, take, ◌-◌};
    ghost use Rattle.dns_name.specs.Labels.{labels_of};
    ghost use Rattle.dns_name.specs.Key.{IsKey, key_octets, key_len};

    ghost Value = { List (List ℕ) };

    ghost view = { λ k. labels_of (take (k.len - 1) k.octets) };

    ghost invariant = { λ k. IsKey k.octets k.len };

    ghost inverse = { λ labels. record { octets = key_octets labels; len = key_len labels } };

    ghost use Rattle.dns_name.specs.KeyLaws.{padded_back, size_back};
    ghost use Rattle.std.proofs.Common.{◌≡◌, ap};

    ghost inverse_ok = { λ k h. Prim.rw (padded_back k.octets k.len h, size_back k.octets k.len h) (λ _. k) };
}

// The octets of each name are followed by zeros, so the octets after them say nothing more.
impl PartialEq for NameKey {
    ghost use Rattle.std.specs.Prelude.{nat_eq};
    ghost use Rattle.std.specs.Ordering.{eq_of_both, on};
    ghost use Rattle.std.specs.Cmp.Lexicographic.{pointwise};
    ghost use Rattle.std.specs.Cmp.Rules.{comparing};
    ghost use Rattle.std.proofs.Common.{rules};
    ghost use Rattle.dns_name.specs.Key.{key_octets, key_len};

    ghost eq = { eq_of_both (on key_octets (pointwise nat_eq)) (on key_len nat_eq) };

    ghost laws = { Prim.search (comparing, rules) };

    fn eq(&self, other: &NameKey) -> bool {
        let len = usize::from(self.len);
        self.len == other.len && self.octets[..len] == other.octets[..len]
    }
}

// Hashes the octets of the name, rounded up to a multiple of eight: a hasher takes whole words at
// once, and single octets one by one.
impl Hash for NameKey {
    ghost use Rattle.std.specs.Prelude.{take, ◌∷◌, []};
    ghost use Rattle.std.specs.Cmp.Rules.{hashing};
    ghost use Rattle.std.proofs.Common.{rules};
    ghost use Rattle.dns_name.specs.Key.{key_octets, key_len, end_of_words};

    ghost hash_input = { λ k. take (end_of_words (key_len k)) (key_octets k) ∷ [] };

    ghost respects_eq = { Prim.search (hashing, rules) };

    fn hash<H: Hasher>(&self, state: &mut H) {
        let end = end_of_words(self.len);
        state.write(&self.octets[..end]);
    }
}

/// The zeros after the name in its key.
const ZEROS: [u8; 255] = [0; 255];

impl NameKey {
    /// The key of the name with these octets, in the form of `Name::octets`.
    pub fn from_octets(octets: &[u8]) -> NameKey
        requires { IsLaidOut octets.now }
        ensures { result ≡ lowered (labels_of octets.now) }
    {
        key_of(octets)
    }

    /// Makes this the key of the name with these octets, in the form of `Name::octets`; nothing of
    /// the old name stays. Less is written than for a new key, and nothing is moved.
    #[tactic(auto, using(crate::proofs::LabelLaws::laid_short))]
    pub fn set_octets(&mut self, octets: &[u8])
        requires { IsLaidOut octets.now }
        ensures { self.new ≡ lowered (labels_of octets.now) }
    {
        let before = usize::from(self.len);
        self.octets[..before].copy_from_slice(&ZEROS[..before]);
        put_lower(&mut self.octets, octets);
        self.len = octets.len() as u8 + 1;
    }

    /// The key of the name without its first label; `None` for the root.
    #[tactic(auto, using(crate::proofs::KeyOf::lowered_tail))]
    pub fn parent(&self) -> Option<NameKey>
        ensures { result ≡ parent_of self.now }
    {
        let (_, rest) = split_label(self.octets())?;
        Some(key_of(rest))
    }

    /// Whether this key's name is at or below `suffix`, as `Name::is_under`.
    pub fn is_under<A: Allocator>(&self, suffix: &Name<A>) -> bool
        ensures { IsTrue result ↔ IsUnder self.now suffix.now }
    {
        ends_in(self.octets(), suffix.octets())
    }

    /// The octets of the name in lower case, each label after its length, without the final zero.
    pub fn octets(&self) -> &[u8]
        ensures laid { IsLaidOut result.now }
        ensures labels { labels_of result.now ≡ self.now }
        ensures lower { lowered self.now ≡ self.now }
    {
        &self.octets[..usize::from(self.len) - 1]
    }

    /// The labels of the name in lower case from left to right, at most 127.
    pub fn labels(&self) -> Labels<'_>
        ensures labels { result ≡ self.now }
        ensures few { length self.now ≤ 127 }
    {
        labels_in(self.octets())
    }
}

/// Whether octets, at most 255, are equal, ASCII letter case aside (RFC 1035 2.3.3). Most equal
/// names are spelled alike, so a comparison with case comes first.
pub(crate) fn is_same_text(a: &[u8], b: &[u8]) -> bool
    requires { length a.now ≤ 255 }
    ensures { IsTrue result ↔ (map to_ascii_lowercase a.now ≡ map to_ascii_lowercase b.now) }
{
    a == b || is_same_in_lower_case(a, b)
}

/// The key of a name with these octets.
#[tactic(auto, using(crate::proofs::LabelLaws::laid_short))]
pub(crate) fn key_of(name: &[u8]) -> NameKey
    requires { IsLaidOut name.now }
    ensures { result ≡ lowered (labels_of name.now) }
{
    NameKey {
        octets: lower_with_zeros(name),
        len: name.len() as u8 + 1,
    }
}

/// `len`, rounded up to a multiple of eight; a key has at most 255 octets.
fn end_of_words(len: u8) -> usize
    ensures end { result ≡ end_of_words len }
    ensures within { result ≤ 255 }
{
    let words = (usize::from(len) + 7) / 8;
    (words * 8).min(255)
}

/// The number of octets compared one by one, up to the first difference.
const FEW: usize = 32;

/// Whether octets, at most 255, are equal in lower case. More than a few are turned to lower case
/// before any are compared: with no branch at each octet, many are taken at once.
#[tactic(auto, using(crate::proofs::KeyOf::padded_same))]
fn is_same_in_lower_case(a: &[u8], b: &[u8]) -> bool
    requires { length a.now ≤ 255 }
    ensures { IsTrue result ↔ (map to_ascii_lowercase a.now ≡ map to_ascii_lowercase b.now) }
{
    if a.len() <= FEW {
        return a.eq_ignore_ascii_case(b);
    }
    a.len() == b.len() && lower_with_zeros(a) == lower_with_zeros(b)
}

fn lower_with_zeros(octets: &[u8]) -> [u8; 255]
    requires { length octets.now ≤ 255 }
    ensures { result ≡ padded (map to_ascii_lowercase octets.now) }
{
    let mut all = [0u8; 255];
    put_lower(&mut all, octets);
    all
}

/// Puts octets in lower case in place of the first octets.
fn put_lower(all: &mut [u8; 255], octets: &[u8])
    requires { length octets.now ≤ 255 }
    ensures { all.new ≡ map to_ascii_lowercase octets.now ++ drop (length octets.now) all.old }
{
    for (i, octet) in octets.iter().enumerate() {
        all[i] = octet.to_ascii_lowercase();
    }
}
