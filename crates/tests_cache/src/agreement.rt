//! Random calls of a cache and of a plain list.

ghost use Rattle.std.specs.Prelude.{◌<◌};

use crate::plain::{Entry, PlainCache};
use crate::samples::Denial;
use dns_name::NameFault;
use lru::DefaultHasher;
use rand_core::utils::NextWord;
use rand_pcg::Pcg32;
use record_cache::{Cache, Held};
use std::alloc::Global;
use std::mem::forget;
use std::test::Fail;

const NAMES: [&str; 16] = [
    "a.example",
    "b.example",
    "c.example",
    "d.example",
    "e.example",
    "f.example",
    "g.example",
    "h.example",
    "i.example",
    "j.example",
    "k.example",
    "l.example",
    "m.example",
    "n.example",
    "o.example",
    "p.example",
];

/// A name error, and three types.
const KINDS: [Option<u16>; 4] = [None, Some(1), Some(5), Some(16)];

/// In seconds.
const LIFETIMES: [u16; 4] = [0, 1, 30, 3000];

/// The number of calls.
const CALLS: u64 = 200;

fn entry_of(held: Option<&Held>) -> Option<Entry> {
    let held = held?;
    Some(Entry {
        rank: held.piece.rank,
        lifetime: held.piece.lifetime,
        accepted: held.accepted,
    })
}

/// A value, chosen by a word.
fn pick<T: Copy>(values: &[T], word: u32) -> Option<T> {
    values.get(word as usize % values.len().max(1)).copied()
}

fn denial_by(word: u32) -> Option<Denial<'static>> {
    Some(Denial {
        owner: pick(&NAMES, word)?,
        kind: pick(&KINDS, word >> 4)?,
        lifetime: pick(&LIFETIMES, word >> 8)?,
        rank: pick(&[1, 2, 3], word >> 12)?,
    })
}

/// Offers the denial to the cache and to the list, and returns whether the answers are equal.
fn offer_both(
    alloc: Global,
    cache: &mut Cache<DefaultHasher>,
    plain: &mut PlainCache,
    denial: Denial<'_>,
    moment: u64,
) -> Result<bool, Fail> {
    let slot = denial.slot(alloc)?;
    let offered = Entry {
        rank: denial.rank,
        lifetime: u32::from(denial.lifetime),
        accepted: moment,
    };
    let answer = plain.offer(&slot, offered)?;
    Ok(denial.offer(alloc, cache, moment)? == answer)
}

/// Makes a random call of the cache and of the list, and returns whether the answers agree.
fn call_both(
    alloc: Global,
    cache: &mut Cache<DefaultHasher>,
    plain: &mut PlainCache,
    word: u32,
    moment: u64,
) -> Result<bool, Fail> {
    let denial = denial_by(word).ok_or("a denial")?;
    let slot = denial.slot(alloc)?;
    match word >> 16 & 7 {
        0 | 1 => {
            cache.promote(&slot);
            plain.promote(&slot)?;
            Ok(true)
        }
        2 => {
            cache.forget(&slot);
            plain.forget(&slot);
            Ok(true)
        }
        _ => offer_both(alloc, cache, plain, denial, moment),
    }
}

/// Whether each look-up of a name finds equal entries in the cache and in the list.
fn finds_the_same(
    alloc: Global,
    cache: &Cache<DefaultHasher>,
    plain: &PlainCache,
    name: &str,
) -> Result<bool, NameFault> {
    for kind in &KINDS {
        let slot = Denial::of(name, *kind).slot(alloc)?;
        if entry_of(cache.peek(&slot)) != plain.peek(&slot) {
            return Ok(false);
        }
    }
    Ok(true)
}

/// Whether the cache and the list are equal, as far as calls show.
fn are_the_same(
    alloc: Global,
    cache: &Cache<DefaultHasher>,
    plain: &PlainCache,
) -> Result<bool, NameFault> {
    for name in &NAMES {
        if !finds_the_same(alloc, cache, plain, name)? {
            return Ok(false);
        }
    }
    Ok(
        cache.len() == plain.entries.len()
            && cache.has_name_error(10) == plain.has_name_error()
            && !cache.has_name_error(9),
    )
}

/// The first random call with differing answers of cache and list, and the first call with
/// differing contents afterwards, if any. Another capacity has other calls.
fn partings(
    alloc: Global,
    cache: &mut Cache<DefaultHasher>,
    plain: &mut PlainCache,
) -> Result<(Option<u64>, Option<u64>), Fail> {
    let mut random = Pcg32::new(plain.capacity as u64, 1);
    for call in 0..CALLS {
        let word = random.next_word();
        if !call_both(alloc, cache, plain, word, call * 400)? {
            return Ok((Some(call), None));
        }
        if !are_the_same(alloc, cache, plain)? {
            return Ok((None, Some(call)));
        }
    }
    Ok((None, None))
}

/// The number of entries left by a clear of the cache, and whether a name error is left.
fn left(cache: &mut Cache<DefaultHasher>) -> (usize, bool) {
    cache.clear();
    (cache.len(), cache.has_name_error(10))
}

/// The result of [`partings`], then the result of [`left`].
type Compared = ((Option<u64>, Option<u64>), (usize, bool));

/// Compares a new cache with a new list of this capacity. Both are forgotten: dropping them would
/// need a proof here.
fn compared_anew(alloc: Global, capacity: usize) -> Result<Compared, Fail>
    requires { 0 < capacity }
{
    let mut cache = Cache::new(alloc, capacity, DefaultHasher::default())?;
    let mut plain = PlainCache::new(alloc, capacity);
    let partings = partings(alloc, &mut cache, &mut plain);
    let left = left(&mut cache);
    forget((cache, plain));
    Ok((partings?, left))
}

#[test]
fn a_cache_and_a_plain_list_agree(rt: HostRuntime) -> Result<(), Fail> {
    for capacity in [1usize, 2, 16] {
        let ((answered, after), (count, has_name_error)) = compared_anew(rt.alloc(), capacity)?;
        assert_eq!(rt; answered, None, "at capacity {capacity}");
        assert_eq!(rt; after, None, "at capacity {capacity}");
        assert_eq!(rt; count, 0, "at capacity {capacity}");
        assert!(rt; !has_name_error, "at capacity {capacity}");
    }
    Ok(())
}
