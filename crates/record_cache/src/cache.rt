//! The entries, in the order of their last use.

ghost use Rattle.std.specs.Prelude.{◌≡◌, ◌<◌, ◌||◌, [], if◌then◌else◌, length, option_map, None, Some, IfOk};
ghost use Rattle.std.specs.Prelude.{MatchOption};
ghost use Rattle.record_cache.specs.Entries.{AreHeld, entry_of, has_name_error, has_slot, may_deny_at};
ghost use Rattle.record_cache.specs.Entries.{may_have_alias_at, promoted, without};
ghost use Rattle.record_cache.specs.Offers.{answer, found_room, is_outranked, kept, offered};
ghost use Rattle.record_cache.specs.Storing.{AreFew, IsStored, hash_of, marks_in};
ghost use Rattle.std.specs.Map.{values_of};

use crate::counts::{Marks, Tables};
use crate::hashed::{CarriedHashes, HashedSlot, hashed_by};
use crate::held::Held;
use crate::look_up_slot::LookUpSlot;
use lru::LruCache;
use std::alloc::{AllocError, Allocator, Global};
use std::hash::BuildHasher;
use std::marker::Model;
use std::num::NonZeroUsize;
use trust_rank::{Piece, Slot};

/// How an offer ended.
#[derive(Clone, Copy, Debug, PartialEq, Eq)]
pub enum Offered {
    /// The piece is the entry of its slot, most recently used.
    Kept,
    /// A living entry of a higher rank stays (RFC 2181 5.4.1).
    Outranked,
    /// The piece has no lifetime: its slot has no entry now.
    NotKept,
    /// The slot had no entry, and memory for an entry ran out.
    Unkept,
}

/// Entries of different slots, at most `capacity` of them, the most recently used first.
#[derive(Drop)]
pub struct Cache<H: BuildHasher, A: Allocator = Global> {
    /// Each under its slot with the hash that the hasher makes of it.
    entries: LruCache<HashedSlot, Held<A>, CarriedHashes, A>,
    /// Hashes each slot that is looked up.
    hasher: H,
    /// Counts of the entries.
    tables: Tables,
}

impl<H: BuildHasher, A: Allocator> Model for Cache<H, A> {
    ghost use Rattle.std.specs.Map.{values_of};
    ghost use Rattle.record_cache.specs.Values.{Cache};
    ghost use Rattle.record_cache.specs.Storing.{IsStored, hash_of};

    ghost Value = { Cache };

    ghost view = { λ c. record { capacity = c.entries.cap; entries = values_of c.entries.entries } };

    ghost invariant = { λ c. IsStored (hash_of H.BuildHasher H.Hasher.Hasher c.hasher) c.entries c.tables };
}

impl<H: BuildHasher + Drop, A: Allocator + Copy> Cache<H, A> {
    /// No entries, with room for `capacity`, which is at least 1.
    pub fn new(alloc: A, capacity: usize, hasher: H) -> Result<Cache<H, A>, AllocError>
        requires { 0 < capacity }
        ensures { IfOk result (λ cache. cache ≡ record { capacity = capacity; entries = [] }) }
    {
        let Some(room) = NonZeroUsize::new(capacity) else {
            unreachable!();
        };
        Ok(Cache {
            entries: LruCache::with_hasher(alloc, room, CarriedHashes::new())?,
            hasher,
            tables: Tables::new(),
        })
    }

    /// Offers a piece, accepted at a moment in milliseconds.
    ///
    /// `Outranked` if the slot has a living entry of a higher rank (RFC 2181 5.4.1), which a name
    /// error overrides: nothing changes. Otherwise `NotKept` if the lifetime is 0: the entry of the
    /// slot is removed. Otherwise `Kept`: the piece goes to the front, in place of the slot's
    /// entry; for a new slot a full cache drops its last entry. `Unkept` if the slot has no entry
    /// and memory ran out: nothing changes.
    pub fn offer(&mut self, piece: Piece<A>, moment: u64) -> Offered
        ensures answer { result ≡ answer moment (found_room result) piece self.old.entries }
        ensures list { self.new ≡ record self.old {
          entries = offered result self.old.capacity moment piece
              self.old.entries;
        } }
    {
        let held = Held {
            piece,
            accepted: moment,
        };
        if self.is_outranked(&held) {
            return Offered::Outranked;
        }
        if held.has_no_lifetime() {
            self.forget(&held.slot());
            return Offered::NotKept;
        }
        if put_first(&self.hasher, &mut self.entries, &mut self.tables, held) {
            Offered::Kept
        } else {
            Offered::Unkept
        }
    }

    /// Whether the slot has an entry that outranks `held` at its acceptance; a name error is never
    /// outranked.
    fn is_outranked(&self, held: &Held<A>) -> bool
        ensures { result ≡ is_outranked held.now.accepted held.now.piece self.now.entries }
    {
        if held.is_name_error() {
            return false;
        }
        let key = hashed_by(&self.hasher, &held.slot());
        match self.entries.peek(&key) {
            Some(other) => other.outranks(held),
            None => false,
        }
    }

    /// The entry of a slot, alive or expired; the order stays. `None` if the slot has none. The
    /// clause `held` repeats the facts about all entries.
    pub fn peek(&self, slot: &Slot) -> Option<&Held<A>>
        ensures found { MatchOption result (entry_of slot.now self.now.entries ≡ None)
            (λ held. entry_of slot.now self.now.entries ≡ Some held.now) }
        ensures held { AreHeld self.now }
    {
        let key = hashed_by(&self.hasher, slot);
        self.entries.peek(&key)
    }

    /// The entry of a slot, as `peek`. The slot keeps its hash, with which `promote_found` finds
    /// the entry again. `held` repeats what holds of all entries.
    pub fn look_up(&self, slot: &mut LookUpSlot) -> Option<&Held<A>>
        ensures found { MatchOption result (entry_of slot.old self.now.entries ≡ None)
            (λ held. entry_of slot.old self.now.entries ≡ Some held.now) }
        ensures slot { slot.new ≡ slot.old }
        ensures held { AreHeld self.now }
    {
        let key = &mut slot.hashed;
        key.hash = self.hasher.hash_one(&key.slot);
        self.entries.peek(&*key)
    }

    /// Makes the entry of a slot the most recently used; without an entry, nothing.
    pub fn promote(&mut self, slot: &Slot)
        ensures { self.new ≡ record self.old { entries = promoted slot.now self.old.entries } }
    {
        let key = hashed_by(&self.hasher, slot);
        self.entries.promote(&key);
    }

    /// Makes the entry of a slot the most recently used, as `promote`, with the hash of the slot's
    /// last look-up. The hash is computed again only if it finds nothing: the slot was changed
    /// since, or another cache made the hash.
    pub fn promote_found(&mut self, slot: &LookUpSlot)
        ensures { self.new ≡ record self.old { entries = promoted slot.now self.old.entries } }
    {
        if !self.entries.promote(&slot.hashed) {
            let own = hashed_by(&self.hasher, &slot.hashed.slot);
            self.entries.promote(&own);
        }
    }

    /// Removes the entry of a slot; without an entry, nothing.
    pub fn forget(&mut self, slot: &Slot)
        ensures { self.new ≡ record self.old { entries = without slot.now self.old.entries } }
    {
        take_out(&self.hasher, &mut self.entries, &mut self.tables, slot);
    }

    /// Removes all entries.
    pub fn clear(&mut self)
        ensures { self.new ≡ record self.old { entries = [] } }
    {
        self.entries.clear();
        self.tables = Tables::new();
    }

    /// The number of entries, with expired ones. The clause `held` repeats the facts about all
    /// entries.
    pub fn len(&self) -> usize
        ensures count { result ≡ length self.now.entries }
        ensures held { AreHeld self.now }
    {
        self.entries.len()
    }

    /// Whether there is a name error, alive or expired, for a name of `size` octets, without the
    /// final zero. If not, no look-up is needed. Reads no entry. The clause `held` repeats the
    /// facts about all entries.
    pub fn has_name_error(&self, size: usize) -> bool
        ensures says { result ≡ has_name_error size self.now.entries }
        ensures held { AreHeld self.now }
    {
        self.tables.sizes.has(size)
    }

    /// Whether a name with this ending, or a name above, may have a name error, alive or expired:
    /// some name error's name is short, or has the same ending. If not, no look-up is needed. Reads
    /// no entry. The clause `held` repeats the facts about all entries.
    pub fn may_deny(&self, ending: usize) -> bool
        ensures says { result ≡ may_deny_at ending self.now.entries }
        ensures held { AreHeld self.now }
    {
        let endings = &self.tables.endings;
        endings.has(0) || endings.has(ending)
    }

    /// Whether a name with this ending may have an entry of type CNAME, alive or expired: some
    /// alias's owner has the ending too. If not, no look-up is needed. Reads no entry. The clause
    /// `held` repeats the facts about all entries.
    pub fn may_have_alias(&self, ending: usize) -> bool
        ensures says { result ≡ may_have_alias_at ending self.now.entries }
        ensures held { AreHeld self.now }
    {
        self.tables.aliases.has(ending)
    }
}

/// Puts an entry first, in place of its slot's entry or of the last entry of a full cache. `false`
/// if the slot has no entry and memory ran out: nothing has changed.
fn put_first<H: BuildHasher, A: Allocator + Copy>(
    hasher: &H,
    entries: &mut LruCache<HashedSlot, Held<A>, CarriedHashes, A>,
    tables: &mut Tables,
    held: Held<A>,
) -> bool
    requires { IsStored (hash_of H.BuildHasher H.Hasher.Hasher hasher.now) entries.old tables.old }
    ensures stored { IsStored (hash_of H.BuildHasher H.Hasher.Hasher hasher.now) entries.new tables.new }
    ensures list { values_of entries.new.entries ≡ (if result
        then kept entries.old.cap held (values_of entries.old.entries) else values_of entries.old.entries) }
    ensures capacity { entries.new.cap ≡ entries.old.cap }
    ensures room { result || has_slot held.piece.slot (values_of entries.old.entries) ≡ result }
{
    let key = hashed_by(hasher, &held.slot());
    let marks = held.marks();
    match entries.push(key, held) {
        Ok(displaced) => {
            tables.remove(marks_in(value_of(displaced)));
            tables.add(marks);
            true
        }
        Err(_) => false,
    }
}

/// Takes the entry of a slot out.
fn take_out<H: BuildHasher, A: Allocator + Copy>(
    hasher: &H,
    entries: &mut LruCache<HashedSlot, Held<A>, CarriedHashes, A>,
    tables: &mut Tables,
    slot: &Slot,
)
    requires { IsStored (hash_of H.BuildHasher H.Hasher.Hasher hasher.now) entries.old tables.old }
    ensures stored { IsStored (hash_of H.BuildHasher H.Hasher.Hasher hasher.now) entries.new tables.new }
    ensures list { values_of entries.new.entries ≡ without slot.now (values_of entries.old.entries) }
    ensures capacity { entries.new.cap ≡ entries.old.cap }
{
    let key = hashed_by(hasher, slot);
    let taken = entries.pop(&key);
    tables.remove(marks_in(taken));
}

/// The numbers for counting the entry, if there is an entry.
fn marks_in<A: Allocator>(held: Option<Held<A>>) -> Marks
    ensures marks { result ≡ marks_in held }
    ensures few { AreFew result }
{
    match held {
        Some(held) => held.marks(),
        None => Marks {
            size: None,
            ending: None,
            alias: None,
        },
    }
}

/// The value of a pair.
fn value_of<A: Allocator>(pair: Option<(HashedSlot, Held<A>)>) -> Option<Held<A>>
    ensures { result ≡ option_map (λ p. p.1) pair }
{
    match pair {
        Some((_, held)) => Some(held),
        None => None,
    }
}
