//! A look-up computes few hashes, however many labels the name has. The promotion afterwards
//! computes none.

use crate::samples::{CONFIG, Denial, found_stale};
use dns_name::{Name, NameFault};
use lru::DefaultHasher;
use negative_cache::{CacheAt, Found, find, shown};
use record_cache::{Cache, LookUpSlot};
use std::alloc::Global;
use std::cell::Cell;
use std::hash::BuildHasher;
use std::mem::forget;
use std::test::Fail;
use suffix_routes::Config;

/// Counts the hashers made, a hasher for each hash.
#[derive(Drop)]
struct Counting<'a, S> {
    begun: &'a Cell<u64>,
    inner: S,
}

impl<'a, S: BuildHasher> BuildHasher for Counting<'a, S> {
    type Hasher = S::Hasher;

    ghost build_hasher = { λ s. S.build_hasher s.inner };

    fn build_hasher(&self) -> S::Hasher {
        self.begun.set(self.begun.get().saturating_add(1));
        self.inner.build_hasher()
    }
}

/// The longest name, of 127 labels (RFC 1035 2.3.4): 254 octets, without the root's.
const LONGEST: &str =
    "a.a.a.a.a.a.a.a.a.a.a.a.a.a.a.a.a.a.a.a.a.a.a.a.a.a.a.a.a.a.a.a.a.a.a.a.a.a.a.a.a.a.\
a.a.a.a.a.a.a.a.a.a.a.a.a.a.a.a.a.a.a.a.a.a.a.a.a.a.a.a.a.a.a.a.a.a.a.a.a.a.a.a.a.a.\
a.a.a.a.a.a.a.a.a.a.a.a.a.a.a.a.a.a.a.a.a.a.a.a.a.a.a.a.a.a.a.a.a.a.a.a.a.a.a.a.a.a.a";

/// Denied names of ten octets, ten, and two, none at or above the longest name. The first has
/// another ending. The second ends in the longest name's last eight octets.
const DENIED: [&str; 3] = ["x.example", "b.a.a.a.a", "b"];

/// The most hashes of a call: one for the set, one for an alias, and one for each size of a denied
/// name.
const MOST: u64 = 4;

/// The hashes of three calls: a look-up, a look-up of expired entries too, and `shown`. Both
/// look-ups have to miss.
fn begun_by(
    begun: &Cell<u64>,
    cache: &mut Cache<Counting<'_, DefaultHasher>>,
    name: &Name,
    config: &Config,
) -> Option<[u64; 3]> {
    begun.set(0);
    let is_missed = matches!(find(cache, name, 1, 1, 2000, config), Found::Miss);
    let alive = begun.replace(0);
    let at = CacheAt {
        cache,
        config,
        moment: 2000,
    };
    let is_missed_stale = matches!(found_stale(&at, name, 60), Found::Miss);
    let stale = begun.replace(0);
    shown(cache, name, 1);
    if is_missed && is_missed_stale {
        Some([alive, stale, begun.get()])
    } else {
        None
    }
}

/// The hashes of each call for the longest name, after offering the denied names to this cache.
fn begun_for_the_longest(
    alloc: Global,
    begun: &Cell<u64>,
    cache: &mut Cache<Counting<'_, DefaultHasher>>,
    config: &Config,
) -> Result<Option<[u64; 3]>, Fail> {
    for denied in DENIED {
        cache.offer(Denial::of(denied, None).piece(alloc)?, 1000);
    }
    let name = Name::from_text(alloc, LONGEST)?;
    Ok(begun_by(begun, cache, &name, config))
}

/// The hashes of a denied name's look-up, and of the promotion afterwards.
fn begun_by_use(
    alloc: Global,
    begun: &Cell<u64>,
    cache: &mut Cache<Counting<'_, DefaultHasher>>,
) -> Result<Option<[u64; 2]>, Fail> {
    cache.offer(Denial::of(DENIED[0], None).piece(alloc)?, 1000);
    let name = Name::from_text(alloc, DENIED[0])?;
    let mut slot = LookUpSlot::new();
    slot.set(name.octets(), 1, None);
    begun.set(0);
    let is_found = cache.look_up(&mut slot).is_some();
    let looked_up = begun.replace(0);
    cache.promote_found(&slot);
    if is_found {
        Ok(Some([looked_up, begun.get()]))
    } else {
        Ok(None)
    }
}

/// The hashes of a denied name's look-up, and of the promotion afterwards, in a new cache. The
/// cache is forgotten.
fn begun_by_use_in_new(alloc: Global) -> Result<Option<[u64; 2]>, Fail> {
    let begun = Cell::new(0);
    let hasher = Counting {
        begun: &begun,
        inner: DefaultHasher::default(),
    };
    let mut cache = Cache::new(alloc, 4, hasher)?;
    let counts = begun_by_use(alloc, &begun, &mut cache);
    forget(cache);
    counts
}

/// The result of [`begun_for_the_longest`] in a new cache. The cache is forgotten.
fn begun_in_new(alloc: Global, config: &Config) -> Result<Option<[u64; 3]>, Fail> {
    let begun = Cell::new(0);
    let hasher = Counting {
        begun: &begun,
        inner: DefaultHasher::default(),
    };
    let mut cache = Cache::new(alloc, 4, hasher)?;
    let counts = begun_for_the_longest(alloc, &begun, &mut cache, config);
    forget(cache);
    counts
}

/// The result of [`begun_for_the_longest`] in a new cache, with a configuration serving all names.
fn begun(alloc: Global) -> Result<Option<[u64; 3]>, Fail> {
    let config = Config::read(alloc, alloc, CONFIG)?;
    begun_in_new(alloc, &config)
}

#[test]
fn a_name_of_127_labels_takes_few_look_ups(rt: HostRuntime) -> Result<(), Fail> {
    let counts = begun(rt.alloc())?.ok_or("a miss")?;
    assert!(rt; counts[0] > 0 && counts.iter().all(|count| *count <= MOST));
    Ok(())
}

#[test]
fn a_promotion_after_a_look_up_computes_no_hash(rt: HostRuntime) -> Result<(), Fail> {
    let counts = begun_by_use_in_new(rt.alloc())?.ok_or("a miss")?;
    assert_eq!(rt; counts, [1, 0]);
    Ok(())
}
