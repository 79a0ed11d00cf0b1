//! Many names.

ghost use Rattle.std.specs.Prelude.{◌<◌};

use crate::samples::{Denial, set};
use lru::DefaultHasher;
use record_cache::{Cache, Offered};
use refusing_allocator::Refusing;
use std::alloc::Global;
use std::mem::forget;
use std::test::Fail;
use trust_rank::{Body, Piece, Slot};

type Heap<'a> = &'a Refusing<Global>;

/// The slot of the numbered name's addresses.
fn slot_numbered(heap: Heap<'_>, number: u32) -> Result<Slot, Fail> {
    let name = format!(in heap; "n{number}.example")?;
    Ok(Denial::of(name.as_str(), Some(1)).slot(heap)?)
}

/// An address of the numbered name.
fn set_numbered<'a>(heap: Heap<'a>, number: u32) -> Result<Piece<Heap<'a>>, Fail> {
    let name = format!(in heap; "n{number}.example")?;
    set(heap, name.as_str())
}

/// Whether the cache holds an address of the numbered name.
fn holds_set_numbered<'a>(
    heap: Heap<'a>,
    cache: &Cache<DefaultHasher, Heap<'a>>,
    number: u32,
) -> Result<bool, Fail> {
    let slot = slot_numbered(heap, number)?;
    match cache.peek(&slot) {
        Some(held) => Ok(matches!(held.piece.body, Body::Rows(_))),
        None => Ok(false),
    }
}

/// Offers an address of the numbered name, with one more allocation granted at each try. Returns
/// whether each refusal left the cache unchanged, and the last try kept the address.
fn is_kept_at_last<'a>(
    heap: Heap<'a>,
    cache: &mut Cache<DefaultHasher, Heap<'a>>,
    number: u32,
) -> Result<bool, Fail> {
    let before = cache.len();
    for growths in 0..64u64 {
        let piece = set_numbered(heap, number)?;
        heap.allow(growths);
        let answer = cache.offer(piece, 1000);
        heap.allow(u64::MAX);
        match answer {
            Offered::Kept => return Ok(growths > 0 && cache.len() == before.saturating_add(1)),
            Offered::Unkept if cache.len() == before => {}
            _ => return Ok(false),
        }
    }
    Ok(false)
}

/// The names offered to a cache.
#[derive(Clone, Copy)]
enum Names {
    /// One name too many for a cache of 4,096 entries.
    OneTooMany,
    /// 4,200 in the largest cache, with each allocation refused in turn.
    Refused,
}

/// Whether an address of the numbered name is kept as required.
fn is_kept<'a>(
    heap: Heap<'a>,
    cache: &mut Cache<DefaultHasher, Heap<'a>>,
    names: Names,
    number: u32,
) -> Result<bool, Fail> {
    match names {
        Names::OneTooMany => Ok(cache.offer(set_numbered(heap, number)?, 1000) == Offered::Kept),
        Names::Refused => is_kept_at_last(heap, cache, number),
    }
}

/// The first of `count` names not kept as required, if any.
fn first_unkept<'a>(
    heap: Heap<'a>,
    cache: &mut Cache<DefaultHasher, Heap<'a>>,
    names: Names,
    count: u32,
) -> Result<Option<u32>, Fail> {
    for number in 0..count {
        if !is_kept(heap, cache, names, number)? {
            return Ok(Some(number));
        }
    }
    Ok(None)
}

/// The first and the last held name of `count` names; `None` if none is held, or not all names
/// between.
fn held_of<'a>(
    heap: Heap<'a>,
    cache: &Cache<DefaultHasher, Heap<'a>>,
    count: u32,
) -> Result<Option<(u32, u32)>, Fail> {
    let mut held = None;
    for number in 0..count {
        if holds_set_numbered(heap, cache, number)? {
            held = match held {
                None => Some((number, number)),
                Some((first, last)) if last.saturating_add(1) == number => Some((first, number)),
                Some(_) => return Ok(None),
            };
        }
    }
    Ok(held)
}

/// The contents after offering many names: the first name not kept, the number of entries, and the
/// first and the last held name.
type Seen = (Option<u32>, usize, Option<(u32, u32)>);

/// The contents of this cache after offering `count` names.
fn seen_in<'a>(
    heap: Heap<'a>,
    cache: &mut Cache<DefaultHasher, Heap<'a>>,
    names: Names,
    count: u32,
) -> Result<Seen, Fail> {
    let unkept = first_unkept(heap, cache, names, count)?;
    Ok((unkept, cache.len(), held_of(heap, cache, count)?))
}

/// The contents of a new cache after offering `count` names. The cache is forgotten: dropping it
/// would need a proof here.
fn seen_in_new(heap: Heap<'_>, capacity: usize, names: Names, count: u32) -> Result<Seen, Fail>
    requires { 0 < capacity }
{
    let mut cache = Cache::new(heap, capacity, DefaultHasher::default())?;
    let seen = seen_in(heap, &mut cache, names, count);
    forget(cache);
    seen
}

fn seen_with(alloc: Global, names: Names) -> Result<Seen, Fail> {
    let heap = Refusing::new(alloc);
    match names {
        Names::OneTooMany => seen_in_new(&heap, 4096, names, 4097),
        Names::Refused => seen_in_new(&heap, 65_536, names, 4200),
    }
}

#[test]
fn the_set_of_the_first_of_4097_names_is_gone(rt: HostRuntime) -> Result<(), Fail> {
    let (unkept, count, held) = seen_with(rt.alloc(), Names::OneTooMany)?;
    assert_eq!(rt; unkept, None);
    assert_eq!(rt; count, 4096);
    assert_eq!(rt; held, Some((1, 4096)));
    Ok(())
}

#[test]
fn each_growth_of_4200_names_in_the_largest_cache_is_refused(rt: HostRuntime) -> Result<(), Fail> {
    let (unkept, count, held) = seen_with(rt.alloc(), Names::Refused)?;
    assert_eq!(rt; unkept, None);
    assert_eq!(rt; count, 4200);
    assert_eq!(rt; held, Some((0, 4199)));
    Ok(())
}
