//! The entry of a slot, if alive.

ghost use Rattle.std.specs.Prelude.{◌≡◌};
ghost use Rattle.std.specs.Option.{option_copied, IfSome};
ghost use Rattle.record_cache.specs.Entries.{AreHeld};
ghost use Rattle.negative_cache.specs.Entries.{is_no_data, is_set};
ghost use Rattle.negative_cache.specs.BySlot.{living_entry, only, slots_of};

use crate::cache_at::CacheAt;
use record_cache::{Body, Held, LookUpSlot};
use std::alloc::Allocator;
use std::hash::BuildHasher;

/// The entry of a slot, where it is alive. The slot keeps its hash. `held` says what holds of all
/// entries.
pub(crate) fn living_entry<'a, H: BuildHasher + Drop, A: Allocator + Copy>(
    at: &CacheAt<'a, H, A>,
    slot: &mut LookUpSlot,
) -> Option<&'a Held<A>>
    ensures found { option_copied result
        ≡ living_entry at.now.moment (slots_of at.now.cache.entries) slot.old }
    ensures slot { IfSome (option_copied result) (λ h. slot.new ≡ h.piece.slot) }
    ensures same { slot.new ≡ slot.old }
    ensures held { AreHeld at.now.cache }
{
    let held = at.cache.look_up(slot)?;
    if held.is_alive(at.moment) {
        Some(held)
    } else {
        None
    }
}

/// The entry, if a set.
pub(crate) fn set_in<A: Allocator>(held: Option<&Held<A>>) -> Option<&Held<A>>
    ensures { option_copied result ≡ only is_set (option_copied held.entry) }
{
    let held = held?;
    if is_set(held) { Some(held) } else { None }
}

/// The entry, if NODATA.
pub(crate) fn no_data_in<A: Allocator>(held: Option<&Held<A>>) -> Option<&Held<A>>
    ensures { option_copied result ≡ only is_no_data (option_copied held.entry) }
{
    let held = held?;
    if is_no_data(held) { Some(held) } else { None }
}

/// Whether an entry is a set.
fn is_set<A: Allocator>(held: &Held<A>) -> bool
    ensures { result ≡ is_set held.now }
{
    match &held.piece.body {
        Body::Rows(_) => true,
        _ => false,
    }
}

/// Whether an entry is NODATA.
fn is_no_data<A: Allocator>(held: &Held<A>) -> bool
    ensures { result ≡ is_no_data held.now }
{
    match &held.piece.body {
        Body::NoData(_) => true,
        _ => false,
    }
}
