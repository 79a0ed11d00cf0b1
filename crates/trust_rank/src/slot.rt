//! The slot of a piece.

use dns_message::NameKey;
use std::hash::{Hash, Hasher};

/// The key of a piece: a name and class with a type, or without a type for the denial of a whole
/// name. Class and type come first, next to the octets of a usual name in memory.
#[derive(Clone, Copy, PartialEq, Eq)]
pub struct Slot {
    /// 1 is IN.
    pub class: u16,
    /// The type; `None` for a name error.
    pub kind: Option<u16>,
    /// The name, letter case aside (RFC 4343).
    pub key: NameKey,
}

// Class and type are hashed as one number of eight octets: a hasher takes whole words at once.
impl Hash for Slot {
    ghost use Rattle.std.specs.Prelude.{take, ◌∷◌, ◌+◌, ◌*◌};
    ghost use Rattle.std.specs.Hash as fed;
    ghost use Rattle.std.specs.Option.{unwrap_or};
    ghost use Rattle.std.specs.Cmp.Rules.{hashing};
    ghost use Rattle.std.proofs.Common.{rules};
    ghost use Rattle.dns_message.specs.DnsName.Key.{key_octets, key_len, end_of_words};

    ghost hash_input = { λ s. take (end_of_words (key_len s.key)) (key_octets s.key)
        ∷ fed.u64 (65536 * s.class + unwrap_or s.kind 0) };

    ghost respects_eq = { Prim.search (hashing, rules) };

    fn hash<H: Hasher>(&self, state: &mut H) {
        self.key.hash(state);
        let kind = self.kind.unwrap_or(0);
        state.write_u64(65_536 * u64::from(self.class) + u64::from(kind));
    }
}
