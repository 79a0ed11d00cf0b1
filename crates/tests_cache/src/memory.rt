//! Refused allocations.

use crate::samples::{DENYING, Denial, found_stale};
use dns_name::{Name, NameFault};
use lru::DefaultHasher;
use negative_cache::{CacheAt, Found, find, shown};
use record_cache::{Cache, Offered};
use refusing_allocator::Refusing;
use std::alloc::Global;
use std::mem::forget;
use std::test::Fail;
use suffix_routes::Config;

type Heap<'a> = &'a Refusing<Global>;

/// Whether a new cache is made with `growths` allocations granted. The cache is forgotten: dropping
/// it would need a proof here.
fn is_made(heap: Heap<'_>, growths: u64) -> bool {
    heap.allow(growths);
    let made = Cache::new(heap, 2, DefaultHasher::default());
    let is_made = made.is_ok();
    forget(made);
    is_made
}

/// The number of a new cache's allocations, refused in turn.
fn refused_of_new(alloc: Global) -> u64 {
    let heap = Refusing::new(alloc);
    for growths in 0..100u64 {
        if is_made(&heap, growths) {
            return growths;
        }
    }
    100
}

#[test]
fn each_growth_of_a_new_cache_is_refused(rt: HostRuntime) {
    assert_eq!(rt;
        refused_of_new(rt.alloc()),
        6,
        "those of the table, and the two ends of the order"
    );
}

/// Offers a denial with `growths` allocations granted, besides the denial's own octets.
fn offer_within<'a>(
    heap: Heap<'a>,
    growths: u64,
    cache: &mut Cache<DefaultHasher, Heap<'a>>,
    denial: Denial<'_>,
    moment: u64,
) -> Result<Offered, NameFault> {
    let piece = denial.piece(heap)?;
    heap.allow(growths);
    let answer = cache.offer(piece, moment);
    heap.allow(u64::MAX);
    Ok(answer)
}

/// The calls of a new cache for two entries.
#[derive(Clone, Copy)]
enum Calls {
    /// A name is offered, then a second name with this number of allocations granted.
    Second(u64),
    /// A set is offered, then offers at the set's slot have no allocation granted.
    SameSlot,
    /// The cache is cleared, with a single allocation granted.
    ClearUnused,
    /// All calls without allocations are made, with a single allocation granted.
    Others,
    /// Names are looked up, with a single allocation granted.
    LookUps,
}

/// The result of these calls.
#[derive(Clone, Copy, PartialEq, Eq, Debug)]
enum Came {
    /// The calls do all that is required.
    Whole,
    /// The second name is not kept, and the cache is unchanged.
    Unkept,
    /// The call with this number, from 0, fails otherwise.
    Other(usize),
}

/// `Whole` if the calls went as required.
const fn came_if(is_whole: bool) -> Came {
    if is_whole {
        Came::Whole
    } else {
        Came::Other(0)
    }
}

fn came_of_second<'a>(
    heap: Heap<'a>,
    cache: &mut Cache<DefaultHasher, Heap<'a>>,
    growths: u64,
) -> Result<Came, NameFault> {
    let first = Denial::of("a.example", None);
    let second = Denial::of("b.c.example", None);
    first.offer(heap, cache, 1000)?;
    let answer = offer_within(heap, growths, cache, second, 2000)?;
    let kept = answer == Offered::Kept;
    let is_right = cache.peek(&first.slot(heap)?).is_some()
        && cache.peek(&second.slot(heap)?).is_some() == kept
        && cache.len() == 1 + usize::from(kept)
        && cache.has_name_error(12) == kept;
    match answer {
        Offered::Kept if is_right => Ok(Came::Whole),
        Offered::Unkept if is_right => Ok(Came::Unkept),
        _ => Ok(Came::Other(1)),
    }
}

/// Offers at the slot of a set of rank 3 and 300 seconds: each rank, lifetime and result.
const OFFERS: [(u8, u16, Offered); 5] = [
    (1, 300, Offered::Outranked),
    (3, 300, Offered::Kept),
    (3, 0, Offered::NotKept),
    (3, 0, Offered::NotKept),
    (3, 300, Offered::Unkept),
];

fn came_of_same_slot<'a>(
    heap: Heap<'a>,
    cache: &mut Cache<DefaultHasher, Heap<'a>>,
) -> Result<Came, NameFault> {
    Denial::of("a.example", Some(1)).offer(heap, cache, 1000)?;
    for (number, (rank, lifetime, wanted)) in OFFERS.iter().enumerate() {
        let next = Denial {
            owner: "A.Example",
            kind: Some(1),
            lifetime: *lifetime,
            rank: *rank,
        };
        if offer_within(heap, 0, cache, next, 2000)? != *wanted {
            return Ok(Came::Other(number));
        }
    }
    Ok(Came::Whole)
}

/// Whether exactly one allocation is left.
fn is_one_left(heap: Heap<'_>) -> bool {
    Box::new(heap, 0u8).is_ok() && Box::new(heap, 0u8).is_err()
}

fn came_of_clear<'a>(heap: Heap<'a>, cache: &mut Cache<DefaultHasher, Heap<'a>>) -> Came {
    heap.allow(1);
    cache.clear();
    came_if(cache.len() == 0 && is_one_left(heap))
}

fn came_of_others<'a>(
    heap: Heap<'a>,
    cache: &mut Cache<DefaultHasher, Heap<'a>>,
) -> Result<Came, NameFault> {
    let first = Denial::of("a.example", Some(1));
    let slot = first.slot(heap)?;
    first.offer(heap, cache, 1000)?;
    heap.allow(1);
    cache.promote(&slot);
    let is_there = cache.peek(&slot).is_some() && !cache.has_name_error(10) && cache.len() == 1;
    cache.forget(&slot);
    cache.clear();
    Ok(came_if(is_there && is_one_left(heap)))
}

/// Looks up a name denied by the configuration, a name under a name error, and a name next to it,
/// and shows the second. All succeed with a single allocation granted, and leave it.
fn are_found<'a>(
    heap: Heap<'a>,
    cache: &mut Cache<DefaultHasher, Heap<'a>>,
    config: &Config<Heap<'a>>,
    names: &[Name<Heap<'a>>; 3],
) -> bool {
    let [local, under, beside] = names;
    heap.allow(1);
    let is_local = matches!(find(&*cache, &*local, 1, 1, 2000, &*config), Found::Local);
    let is_denied = matches!(
        find(&*cache, &*under, 1, 1, 2000, &*config),
        Found::Denied(_)
    );
    let at = CacheAt {
        cache: &*cache,
        config: &*config,
        moment: 2000,
    };
    let is_missed = matches!(find(&*cache, &*beside, 1, 1, 2000, &*config), Found::Miss)
        && matches!(found_stale(&at, &*under, 60), Found::Miss);
    shown(cache, &*under, 1);
    is_local && is_denied && is_missed && is_one_left(heap)
}

fn came_of_look_ups<'a>(
    heap: Heap<'a>,
    cache: &mut Cache<DefaultHasher, Heap<'a>>,
    config: &Config<Heap<'a>>,
) -> Result<Came, NameFault> {
    Denial::of("x.example", None).offer(heap, cache, 1000)?;
    let names = [
        Name::from_text(heap, "h.lan")?,
        Name::from_text(heap, "a.x.example")?,
        Name::from_text(heap, "y.example")?,
    ];
    Ok(came_if(are_found(heap, cache, config, &names)))
}

/// The result of these calls for this cache, with a configuration.
fn came_of<'a>(
    heap: Heap<'a>,
    cache: &mut Cache<DefaultHasher, Heap<'a>>,
    config: &Config<Heap<'a>>,
    calls: Calls,
) -> Result<Came, NameFault> {
    match calls {
        Calls::Second(growths) => came_of_second(heap, cache, growths),
        Calls::SameSlot => came_of_same_slot(heap, cache),
        Calls::ClearUnused => Ok(came_of_clear(heap, cache)),
        Calls::Others => came_of_others(heap, cache),
        Calls::LookUps => came_of_look_ups(heap, cache, config),
    }
}

/// The result of these calls for a new cache. The cache is forgotten.
fn came_of_new<'a>(heap: Heap<'a>, config: &Config<Heap<'a>>, calls: Calls) -> Result<Came, Fail> {
    let mut cache = Cache::new(heap, 2, DefaultHasher::default())?;
    let came = came_of(heap, &mut cache, config, calls);
    forget(cache);
    Ok(came?)
}

/// The result of these calls for a new cache, with a denying configuration.
fn done(alloc: Global, calls: Calls) -> Result<Came, Fail> {
    let heap = Refusing::new(alloc);
    let config = Config::read(alloc, &heap, DENYING)?;
    came_of_new(&heap, &config, calls)
}

/// The number of the second offer's allocations, refused in turn until the offer is kept, and the
/// result then.
fn refused_of_second(alloc: Global) -> Result<(u64, Came), Fail> {
    for growths in 0..100u64 {
        let came = done(alloc, Calls::Second(growths))?;
        if came != Came::Unkept {
            return Ok((growths, came));
        }
    }
    Ok((100, Came::Unkept))
}

#[test]
fn each_growth_of_an_offer_at_a_new_slot_is_refused(rt: HostRuntime) -> Result<(), Fail> {
    let (refused, came) = refused_of_second(rt.alloc())?;
    assert_eq!(rt; came, Came::Whole, "with {refused} granted");
    assert_eq!(rt; refused, 1, "the entry");
    Ok(())
}

#[test]
fn offers_at_a_slot_that_is_there_take_no_memory(rt: HostRuntime) -> Result<(), Fail> {
    assert_eq!(rt; done(rt.alloc(), Calls::SameSlot)?, Came::Whole);
    Ok(())
}

#[test]
fn a_cache_that_was_never_used_is_cleared_without_memory(rt: HostRuntime) -> Result<(), Fail> {
    assert_eq!(rt; done(rt.alloc(), Calls::ClearUnused)?, Came::Whole);
    Ok(())
}

/// A single granted allocation stays unspent over all calls without allocations.
#[test]
fn other_calls_take_no_memory(rt: HostRuntime) -> Result<(), Fail> {
    assert_eq!(rt; done(rt.alloc(), Calls::Others)?, Came::Whole);
    Ok(())
}

#[test]
fn look_ups_take_no_memory(rt: HostRuntime) -> Result<(), Fail> {
    assert_eq!(rt; done(rt.alloc(), Calls::LookUps)?, Came::Whole);
    Ok(())
}
