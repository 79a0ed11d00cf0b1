//! The input of a look-up: a cache, a configuration and a moment.

use record_cache::Cache;
use std::alloc::{Allocator, Global};
use std::hash::BuildHasher;
use std::marker::Model;
use suffix_routes::Config;

/// A cache at one moment under one configuration, on which alone the outcome of a look-up depends.
/// Borrowed for a look-up or a few.
#[derive(Drop)]
pub struct CacheAt<'a, H: BuildHasher, A: Allocator = Global> {
    pub cache: &'a Cache<H, A>,
    pub config: &'a Config<A>,
    /// In milliseconds.
    pub moment: u64,
}

impl<'a, H: BuildHasher, A: Allocator> Model for CacheAt<'a, H, A> {
    ghost use Rattle.negative_cache.specs.Moments.{CacheAt};

    ghost Value = { CacheAt };

    ghost view = { λ a. record { cache = a.cache.now; config = a.config.now; moment = a.moment } };
}
