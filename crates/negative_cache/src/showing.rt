//! The names that a set or NODATA shows to exist.

ghost use Rattle.std.specs.Prelude.{◌≡◌, None};
ghost use Rattle.dns_name.specs.Labels.{labels_of, lowered, IsLaidOut};
ghost use Rattle.record_cache.specs.Entries.{AreHeld, without};
ghost use Rattle.negative_cache.specs.Showing.{shown};

use dns_name::{Name, NameKey, split_label};
use record_cache::{Cache, Slot, ending};
use std::alloc::Allocator;
use std::hash::BuildHasher;

/// Removes the name errors of the class, of the name and of the names above, which a set or NODATA
/// at the name shows to exist (RFC 8020 2); and nothing else.
pub fn shown<H: BuildHasher + Drop, A: Allocator + Copy>(
    cache: &mut Cache<H, A>,
    name: &Name<A>,
    class: u16,
)
    ensures { cache.new ≡ record cache.old { entries = shown name.now class cache.old.entries } }
{
    let mut rest = name.octets();
    if !cache.may_deny(ending(rest)) {
        return;
    }
    forget_name_error(cache, rest, class);
    while let Some((_, higher)) = split_label(rest) {
        rest = higher;
        forget_name_error(cache, rest, class);
    }
}

/// Removes the name error of the name with these octets. The clause `held` repeats the facts about
/// all entries.
fn forget_name_error<H: BuildHasher + Drop, A: Allocator + Copy>(
    cache: &mut Cache<H, A>,
    octets: &[u8],
    class: u16,
)
    requires { IsLaidOut octets.now }
    ensures forgotten { cache.new ≡ record cache.old {
      entries = without (record { key = lowered (labels_of octets.now); class = class; kind = None })
          cache.old.entries;
    } }
    ensures held { AreHeld cache.old }
{
    if !cache.has_name_error(octets.len()) {
        return;
    }
    let slot = Slot {
        key: NameKey::from_octets(octets),
        class,
        kind: None,
    };
    cache.forget(&slot);
}
