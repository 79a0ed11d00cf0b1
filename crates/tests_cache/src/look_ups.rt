//! A look-up of each kind.

use crate::samples::{ALIAS, DENYING, Denial, pieces_of};
use dns_name::Name;
use lru::DefaultHasher;
use negative_cache::{Found, find, find_stale};
use record_cache::Cache;
use std::alloc::Global;
use std::mem::forget;
use std::test::Fail;
use suffix_routes::Config;
use trust_rank::Piece;

/// Names, each looked up for an address: the finding a second after acceptance, and the finding
/// after expiry, with a window of an hour. The set expires after five minutes, the alias after a
/// minute, both within the window; the denials expire after an hour. The configuration denies names
/// under `lan`; only the look-up of living entries reports so.
const LOOK_UPS: [(&str, &str, &str); 6] = [
    ("h.Lan", "local", "miss"),
    ("B.example", "rows", "rows"),
    ("a.Example", "alias", "alias"),
    ("n.example", "no data", "miss"),
    ("y.x.example", "denied", "miss"),
    ("z.example", "miss", "miss"),
];

/// The finding, in a word.
fn word(found: &Found<'_>) -> &'static str {
    match found {
        Found::Local => "local",
        Found::Rows(_) => "rows",
        Found::Alias(_) => "alias",
        Found::NoData(_) => "no data",
        Found::Denied(_) => "denied",
        Found::Miss => "miss",
    }
}

/// Offers the pieces, an alias `a.example` and the addresses of `b.example`; then NODATA of
/// `n.example` and a name error of `x.example`.
fn fill(alloc: Global, cache: &mut Cache<DefaultHasher>, pieces: &[Piece]) -> Result<(), Fail> {
    for piece in pieces {
        cache.offer(piece.copy(alloc)?, 1000);
    }
    Denial::of("n.example", Some(1)).offer(alloc, cache, 1000)?;
    Denial::of("x.example", None).offer(alloc, cache, 1000)?;
    Ok(())
}

/// A name's findings, alive and expired.
fn words(
    alloc: Global,
    cache: &Cache<DefaultHasher>,
    config: &Config,
    name: &str,
) -> Result<(&'static str, &'static str), Fail> {
    let name = Name::from_text(alloc, name)?;
    let found = find(cache, &name, 1, 1, 2000, config);
    let expired = find_stale(cache, &name, 1, 1, 3_660_000, 3600);
    Ok((word(&found), word(&expired)))
}

/// The number of right look-ups, alive and expired, after offering the pieces and denials to this
/// cache.
fn right_look_ups(
    alloc: Global,
    cache: &mut Cache<DefaultHasher>,
    config: &Config,
    pieces: &[Piece],
) -> Result<(usize, usize), Fail> {
    fill(alloc, cache, pieces)?;
    let (mut alive, mut stale) = (0usize, 0usize);
    for (name, wanted, wanted_stale) in &LOOK_UPS {
        let (found, expired) = words(alloc, cache, config, name)?;
        alive = alive.saturating_add(usize::from(found == *wanted));
        stale = stale.saturating_add(usize::from(expired == *wanted_stale));
    }
    Ok((alive, stale))
}

/// The number of right look-ups, alive and expired, in a new cache with these pieces and denials.
/// The cache is forgotten.
fn right_in_new(alloc: Global, config: &Config, pieces: &[Piece]) -> Result<(usize, usize), Fail> {
    let mut cache = Cache::new(alloc, 8, DefaultHasher::default())?;
    let right = right_look_ups(alloc, &mut cache, config, pieces);
    forget(cache);
    right
}

/// The number of right look-ups, alive and expired, with a reply's pieces and a denying
/// configuration.
fn right(alloc: Global) -> Result<(usize, usize), Fail> {
    let config = Config::read(alloc, alloc, DENYING)?;
    let pieces = pieces_of(alloc, ALIAS)?;
    right_in_new(alloc, &config, pieces.as_slice())
}

#[test]
fn each_look_up_finds_what_is_there(rt: HostRuntime) -> Result<(), Fail> {
    assert!(rt; right(rt.alloc())? == (6, 6));
    Ok(())
}
