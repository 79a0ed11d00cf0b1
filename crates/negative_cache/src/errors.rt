//! Name errors of a name and of the names above it.

ghost use Rattle.std.specs.Prelude.{◌≡◌, ◌<◌, ◌+◌, ◌↔◌, IsTrue, length, nat_eq};
ghost use Rattle.std.specs.Option.{option_copied, option_eq, IfSome};
ghost use Rattle.dns_name.specs.Labels.{labels_of, lowered, size_of, IsLaidOut, IsUnder};
ghost use Rattle.suffix_routes.specs.Routes.{route_of};
ghost use Rattle.record_cache.specs.Entries.{ending};
ghost use Rattle.negative_cache.specs.BySlot.{above, name_error_of, name_error_on, nearest_error, slots_of};

use crate::cache_at::CacheAt;
use crate::living::living_entry;
use dns_message::QuestionRef;
use dns_name::{Name, ends_in, split_label};
use record_cache::{Held, LookUpSlot};
use std::alloc::Allocator;
use std::hash::BuildHasher;
use suffix_routes::Config;

/// The nearest living name error of the question's name, whose ending this is, or of a name above
/// whose own name has the route of the question's name. Routes are compared only if a living name
/// error of a name above is met. The slot becomes each name's in turn, so no new key is made.
pub(crate) fn nearest_name_error<'a, H: BuildHasher + Drop, A: Allocator + Copy>(
    at: &CacheAt<'a, H, A>,
    slot: &mut LookUpSlot,
    question: &QuestionRef<'_>,
    end: usize,
) -> Option<&'a Held<A>>
    requires { end ≡ ending (lowered question.now.name) }
    ensures found { option_copied result ≡ nearest_error at.now.config.routes at.now.moment
        (slots_of at.now.cache.entries) question.now.class (lowered question.now.name) }
    ensures slot { IfSome (option_copied result) (λ h. slot.new ≡ h.piece.slot) }
{
    if !at.cache.may_deny(end) {
        return None;
    }
    if let Some(held) = name_error_of(at, slot, question.name(), question.class()) {
        return Some(held);
    }
    nearest_above(at, slot, question)
}

/// The nearest living name error of the names above the question's whose own name has the route of
/// the question's name.
fn nearest_above<'a, H: BuildHasher + Drop, A: Allocator + Copy>(
    at: &CacheAt<'a, H, A>,
    slot: &mut LookUpSlot,
    question: &QuestionRef<'_>,
) -> Option<&'a Held<A>>
    ensures found { option_copied result
        ≡ above (name_error_on at.now.config.routes (route_of at.now.config.routes (lowered question.now.name))
        at.now.moment (slots_of at.now.cache.entries) question.now.class) (lowered question.now.name) }
    ensures slot { IfSome (option_copied result) (λ h. slot.new ≡ h.piece.slot) }
{
    let mut rest = question.name();
    while let Some((_, higher)) = split_label(rest) {
        rest = higher;
        if let Some(held) = name_error_on(at, slot, rest, question) {
            return Some(held);
        }
    }
    None
}

/// The living name error of the name with these octets, if this name has the route of the
/// question's name below.
fn name_error_on<'a, H: BuildHasher + Drop, A: Allocator + Copy>(
    at: &CacheAt<'a, H, A>,
    slot: &mut LookUpSlot,
    octets: &[u8],
    question: &QuestionRef<'_>,
) -> Option<&'a Held<A>>
    requires laid { IsLaidOut octets.now }
    requires under { IsUnder question.now.name (labels_of octets.now) }
    ensures found { option_copied result
        ≡ name_error_on at.now.config.routes (route_of at.now.config.routes (lowered question.now.name)) at.now.moment
        (slots_of at.now.cache.entries) question.now.class (lowered (labels_of octets.now)) }
    ensures slot { IfSome (option_copied result) (λ h. slot.new ≡ h.piece.slot) }
{
    let held = name_error_of(at, slot, octets, question.class())?;
    if has_route_of(at.config, octets, question.name()) {
        Some(held)
    } else {
        None
    }
}

/// Whether the name with these octets has the route of the asked name, or both have none. The asked
/// name is below, so the routes are equal exactly if the asked name is under no suffix with more
/// octets than `octets`.
fn has_route_of<A: Allocator>(config: &Config<A>, octets: &[u8], asked: &[u8]) -> bool
    requires laid { IsLaidOut octets.now }
    requires asked { IsLaidOut asked.now }
    requires under { IsUnder (labels_of asked.now) (labels_of octets.now) }
    ensures { result
        ≡ option_eq nat_eq (route_of config.now.routes (labels_of octets.now))
        (route_of config.now.routes (labels_of asked.now)) }
{
    let routes = config.routes();
    for route in routes {
        let suffix = &route.suffix;
        if is_under_longer(asked, suffix, octets.len()) {
            return false;
        }
    }
    true
}

/// Whether the name with these octets is under this suffix, and the suffix has more than `size`
/// octets without the final zero. The length alone decides for most suffixes.
fn is_under_longer<A: Allocator>(octets: &[u8], suffix: &Name<A>, size: usize) -> bool
    requires { IsLaidOut octets.now }
    ensures { IsTrue result ↔ (IsUnder (labels_of octets.now) suffix.now × (size + 1 < size_of suffix.now)) }
{
    suffix.octets().len() > size && ends_in(octets, suffix.octets())
}

/// The living name error of the name with these octets, whose slot overwrites the slot.
fn name_error_of<'a, H: BuildHasher + Drop, A: Allocator + Copy>(
    at: &CacheAt<'a, H, A>,
    slot: &mut LookUpSlot,
    octets: &[u8],
    class: u16,
) -> Option<&'a Held<A>>
    requires { IsLaidOut octets.now }
    ensures found { option_copied result
        ≡ name_error_of at.now.moment (slots_of at.now.cache.entries) class (lowered (labels_of octets.now)) }
    ensures slot { IfSome (option_copied result) (λ h. slot.new ≡ h.piece.slot) }
{
    if !at.cache.has_name_error(octets.len()) {
        return None;
    }
    slot.set(octets, class, None);
    living_entry(at, slot)
}
