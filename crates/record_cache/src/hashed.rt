//! Slots under their hashes, as the table of the cache has them.

ghost use Rattle.std.specs.Prelude.{◌≡◌};
ghost use Rattle.record_cache.specs.Storing.{hash_of, hashed};

use std::hash::{BuildHasher, BuildHasherDefault, Hash, Hasher};
use trust_rank::Slot;

/// A slot with its hash, which is compared before the slot: equal keys carry equal hashes. It feeds
/// a hasher the hash alone, so the octets of a name are hashed once, however often the key is
/// looked for.
#[derive(Clone, Copy, PartialEq, Eq)]
pub(crate) struct HashedSlot {
    pub hash: u64,
    pub slot: Slot,
}

impl Hash for HashedSlot {
    ghost use Rattle.std.specs.Hash as fed;
    ghost use Rattle.std.specs.Cmp.Rules.{hashing};
    ghost use Rattle.std.proofs.Common.{rules};

    ghost hash_input = { λ s. fed.u64 s.hash };

    ghost respects_eq = { Prim.search (hashing, rules) };

    fn hash<H: Hasher>(&self, state: &mut H) {
        state.write_u64(self.hash);
    }
}

/// The slot with the hash that this hasher makes of it.
pub(crate) fn hashed_by<H: BuildHasher>(hasher: &H, slot: &Slot) -> HashedSlot
    ensures { result ≡ hashed (hash_of H.BuildHasher H.Hasher.Hasher hasher.now) slot.now }
{
    HashedSlot {
        hash: hasher.hash_one(slot),
        slot: *slot,
    }
}

/// A hasher whose outcome is the hash that a key carries, as the cache's own hasher made it.
#[derive(Clone, Copy, Default)]
pub(crate) struct Carried {
    hash: u64,
}

/// The hashers of the table.
pub(crate) type CarriedHashes = BuildHasherDefault<Carried>;

impl Hasher for Carried {
    ghost use Rattle.std.specs.Prelude.{nat_lt, length, take, if◌then◌else◌};
    ghost use Rattle.std.specs.Int.{w64, from_le_bytes};

    ghost write = { λ s octets. if nat_lt (length octets) 8 then s
        else record { hash = from_le_bytes w64 (take 8 octets) } };

    ghost finish = { λ s. s.hash };

    fn finish(&self) -> u64 {
        self.hash
    }

    fn write(&mut self, octets: &[u8]) {
        if let Some(first) = octets.first_chunk::<8>() {
            self.hash = u64::from_le_bytes(*first);
        }
    }
}
