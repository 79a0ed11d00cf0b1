//! Look-ups of a question in the cache.

ghost use Rattle.std.specs.Prelude.{◌≡◌};
ghost use Rattle.std.specs.Option.{option_copied, IfSome};
ghost use Rattle.record_cache.specs.Entries.{ending};
ghost use Rattle.negative_cache.specs.BySlot.{alias_at, slots_of};
ghost use Rattle.negative_cache.specs.Finding.{found, found_or_local};
ghost use Rattle.negative_cache.specs.Values.{found_of, IsSlotOf};

use crate::cache_at::CacheAt;
use crate::errors::nearest_name_error;
use crate::found::Found;
use crate::living::{living_entry, no_data_in, set_in};
use dns_message::QuestionRef;
use dns_message::types::CNAME;
use dns_name::Name;
use record_cache::{Cache, Held, LookUpSlot, key_ending};
use std::alloc::Allocator;
use std::hash::BuildHasher;
use suffix_routes::{Config, Routing};

/// Looks a question up at a moment, in milliseconds. `Local` if the configuration denies the name.
/// Otherwise the first living entry of: the set of the type, the alias if the type is not CNAME
/// (RFC 1034 3.6.2), NODATA of the type (RFC 2308 2.2), and the nearest name error of the name or
/// of a name above (RFC 8020 2) whose own name has the route of the name.
pub fn find<'a, H: BuildHasher + Drop, A: Allocator + Copy>(
    cache: &'a Cache<H, A>,
    name: &Name<A>,
    class: u16,
    kind: u16,
    moment: u64,
    config: &'a Config<A>,
) -> Found<'a, A>
    ensures { found_of result
        ≡ found_or_local config.now.routes moment cache.now.entries
        (record { name = name.now; kind = kind; class = class }) }
{
    if matches!(config.routing(name), Routing::Denied) {
        return Found::Local;
    }
    let mut slot = LookUpSlot::new();
    let at = CacheAt {
        cache,
        config,
        moment,
    };
    let question = QuestionRef::from_octets(name.octets(), kind, class);
    at.find(&mut slot, &question)
}

impl<'a, H: BuildHasher + Drop, A: Allocator + Copy> CacheAt<'a, H, A> {
    /// Like the function `find`, without the check for denying routes: if no entry has a denied
    /// name, such a name misses. The slot becomes the found entry's, for `promote`; after a miss it
    /// is any. Its value before does not matter: one slot serves many look-ups, and no key is
    /// moved. Routes are compared only if a living name error of a name above is met.
    pub fn find(&self, slot: &mut LookUpSlot, question: &QuestionRef<'_>) -> Found<'a, A>
        ensures found { found_of result
            ≡ found self.now.config.routes self.now.moment self.now.cache.entries question.now }
        ensures slot { IsSlotOf slot.new (found_of result) }
    {
        let kind = question.kind();
        slot.set(question.name(), question.class(), Some(kind));
        let own = living_entry(self, slot);
        if let Some(held) = set_in(own) {
            return Found::Rows(held);
        }
        let end = key_ending(slot.key());
        if let Some(held) = alias_beside(self, slot, end, kind) {
            return Found::Alias(held);
        }
        if let Some(held) = no_data_in(own) {
            slot.set_kind(Some(kind));
            return Found::NoData(held);
        }
        match nearest_name_error(self, slot, question, end) {
            Some(held) => Found::Denied(held),
            None => Found::Miss,
        }
    }
}

/// The living alias at the name of a slot of this type, whose ending this is; the slot becomes the
/// alias's. A question for CNAME follows none. If the name may have no alias, none is looked up.
fn alias_beside<'a, H: BuildHasher + Drop, A: Allocator + Copy>(
    at: &CacheAt<'a, H, A>,
    slot: &mut LookUpSlot,
    end: usize,
    kind: u16,
) -> Option<&'a Held<A>>
    requires { end ≡ ending slot.old.key }
    ensures alias { option_copied result
        ≡ alias_at at.now.moment (slots_of at.now.cache.entries) slot.old.key slot.old.class kind }
    ensures slot { IfSome (option_copied result) (λ h. slot.new ≡ h.piece.slot) }
    ensures name { (slot.new.key ≡ slot.old.key) × (slot.new.class ≡ slot.old.class) }
{
    if kind == CNAME {
        return None;
    }
    if !at.cache.may_have_alias(end) {
        return None;
    }
    slot.set_kind(Some(CNAME));
    set_in(living_entry(at, slot))
}
