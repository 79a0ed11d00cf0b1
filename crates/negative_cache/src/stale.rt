//! Look-ups of a question among stale entries (RFC 8767).

ghost use Rattle.std.specs.Prelude.{◌≡◌, ◌≤◌, ◌*◌};
ghost use Rattle.std.specs.Option.{option_copied};
ghost use Rattle.record_cache.specs.Entries.{entry_of, AreHeld};
ghost use Rattle.negative_cache.specs.BySlot.{alias_within, only, slots_of};
ghost use Rattle.negative_cache.specs.Stale.{is_within, stale};
ghost use Rattle.negative_cache.specs.Values.{found_of};

use crate::cache_at::CacheAt;
use crate::found::Found;
use crate::living::set_in;
use dns_message::QuestionRef;
use dns_message::types::CNAME;
use dns_name::Name;
use record_cache::{Cache, Held, LookUpSlot};
use std::alloc::Allocator;
use std::hash::BuildHasher;

/// Looks a question up among living entries and entries expired fewer than `window` seconds ago, at
/// most 86,400, at a moment in milliseconds (RFC 8767 5). `Rows` for the set of the type; otherwise
/// `Alias` if the type is not CNAME (RFC 1034 3.6.2); otherwise `Miss`. No denial is found, and no
/// denial hides an alias. With a window of 0 the outcomes are the sets and aliases of `find`.
pub fn find_stale<'a, H: BuildHasher + Drop, A: Allocator + Copy>(
    cache: &'a Cache<H, A>,
    name: &Name<A>,
    class: u16,
    kind: u16,
    moment: u64,
    window: u64,
) -> Found<'a, A>
    requires { window ≤ 86400 }
    ensures { found_of result
        ≡ stale window moment cache.now.entries (record { name = name.now; kind = kind; class = class }) }
{
    let mut slot = LookUpSlot::new();
    let question = QuestionRef::from_octets(name.octets(), kind, class);
    look_up(cache, &mut slot, &question, moment, window)
}

impl<'a, H: BuildHasher + Drop, A: Allocator + Copy> CacheAt<'a, H, A> {
    /// Looks a question up like the function `find_stale`, with a window of at most 86,400 seconds.
    /// The slot may be any, before and after.
    pub fn find_stale(
        &self,
        slot: &mut LookUpSlot,
        question: &QuestionRef<'_>,
        window: u64,
    ) -> Found<'a, A>
        requires { window ≤ 86400 }
        ensures { found_of result ≡ stale window self.now.moment self.now.cache.entries question.now }
    {
        look_up(self.cache, slot, question, self.moment, window)
    }
}

/// Looks a question up, slot by slot. The slot may be any, before and after.
fn look_up<'a, H: BuildHasher + Drop, A: Allocator + Copy>(
    cache: &'a Cache<H, A>,
    slot: &mut LookUpSlot,
    question: &QuestionRef<'_>,
    moment: u64,
    window: u64,
) -> Found<'a, A>
    requires { window ≤ 86400 }
    ensures { found_of result ≡ stale window moment cache.now.entries question.now }
{
    let kind = question.kind();
    slot.set(question.name(), question.class(), Some(kind));
    if let Some(held) = set_in(entry_within(cache, slot, moment, window)) {
        return Found::Rows(held);
    }
    match alias_within(cache, slot, kind, moment, window) {
        Some(held) => Found::Alias(held),
        None => Found::Miss,
    }
}

/// The alias within the window at the name of a slot of this type. A question for CNAME follows
/// none.
fn alias_within<'a, H: BuildHasher + Drop, A: Allocator + Copy>(
    cache: &'a Cache<H, A>,
    slot: &mut LookUpSlot,
    kind: u16,
    moment: u64,
    window: u64,
) -> Option<&'a Held<A>>
    requires { window ≤ 86400 }
    ensures { option_copied result
        ≡ alias_within window moment (slots_of cache.now.entries) slot.old.key slot.old.class kind }
{
    if kind == CNAME {
        return None;
    }
    slot.set_kind(Some(CNAME));
    set_in(entry_within(cache, slot, moment, window))
}

/// The entry of a slot, if within the window. The clause `held` repeats the facts about all
/// entries.
fn entry_within<'a, H: BuildHasher + Drop, A: Allocator + Copy>(
    cache: &'a Cache<H, A>,
    slot: &mut LookUpSlot,
    moment: u64,
    window: u64,
) -> Option<&'a Held<A>>
    requires { window ≤ 86400 }
    ensures found { option_copied result
        ≡ only (is_within window moment) (entry_of slot.old cache.now.entries) }
    ensures same { slot.new ≡ slot.old }
    ensures held { AreHeld cache.now }
{
    let held = cache.look_up(slot)?;
    if is_within(held, moment, window) {
        Some(held)
    } else {
        None
    }
}

/// Whether an entry is alive at a moment, in milliseconds, or expired fewer than `window` seconds
/// before.
fn is_within<A: Allocator>(held: &Held<A>, moment: u64, window: u64) -> bool
    requires { window ≤ 86400 }
    ensures { result ≡ is_within window moment held.now }
{
    match moment.checked_sub(held.accepted) {
        Some(age) => age < 1000 * (u64::from(held.piece.lifetime) + window),
        None => true,
    }
}
