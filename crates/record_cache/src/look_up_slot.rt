//! A slot that serves look-ups.

ghost use Rattle.std.specs.Prelude.{◌≡◌, [], None};
ghost use Rattle.dns_name.specs.Labels.{labels_of, lowered, IsLaidOut};

use crate::hashed::HashedSlot;
use dns_name::NameKey;
use std::marker::Model;
use trust_rank::Slot;

/// A slot that serves look-ups one after another, so that no key is moved. It keeps the hash of its
/// last look-up for `Cache::promote_found`.
#[derive(Drop)]
pub struct LookUpSlot {
    pub(crate) hashed: HashedSlot,
}

impl Model for LookUpSlot {
    ghost use Rattle.trust_rank.specs.declared.slot.Slot.{Slot};

    ghost Value = { Slot };

    ghost view = { λ s. s.hashed.slot };
}

impl LookUpSlot {
    /// The slot of the root, of no class and no type.
    #[tactic(auto, using(dns_name::proofs::CallerLemmas::no_octets_are_laid_out))]
    pub fn new() -> LookUpSlot
        ensures { result ≡ record { class = 0; kind = None; key = [] } }
    {
        LookUpSlot {
            hashed: HashedSlot {
                hash: 0,
                slot: Slot {
                    class: 0,
                    kind: None,
                    key: NameKey::from_octets(&[]),
                },
            },
        }
    }

    /// Makes this the slot of the name that these octets are, as `Name::octets` gives them, of a
    /// class and a type; `None` for a name error.
    pub fn set(&mut self, octets: &[u8], class: u16, kind: Option<u16>)
        requires { IsLaidOut octets.now }
        ensures { self.new ≡ record { class = class; kind = kind; key = lowered (labels_of octets.now) } }
    {
        let slot = &mut self.hashed.slot;
        slot.key.set_octets(octets);
        slot.class = class;
        slot.kind = kind;
    }

    /// Makes this the slot of another type of its name and class.
    pub fn set_kind(&mut self, kind: Option<u16>)
        ensures { self.new ≡ record self.old { kind = kind } }
    {
        self.hashed.slot.kind = kind;
    }

    /// The slot alone, to be copied.
    pub fn slot(&self) -> &Slot
        ensures { result.now ≡ self.now }
    {
        &self.hashed.slot
    }

    /// The name, letter case aside (RFC 4343).
    pub fn key(&self) -> &NameKey
        ensures { result.now ≡ self.now.key }
    {
        &self.hashed.slot.key
    }
}
