//! The outcome of a look-up.

use record_cache::Held;
use std::alloc::{Allocator, Global};

/// The outcome of a look-up of a question: mostly a living entry of the cache.
#[derive(Drop)]
pub enum Found<'a, A: Allocator = Global> {
    /// The route of the name denies (RFC 6761 6.4): there is no such name, whatever a server says.
    Local,
    /// The set of the type (RFC 2181 5).
    Rows(&'a Held<A>),
    /// An alias in its place (RFC 1034 3.6.2).
    Alias(&'a Held<A>),
    /// NODATA: the name has no records of the type (RFC 2308 2.2).
    NoData(&'a Held<A>),
    /// A name error of the name or of a name above (RFC 2308 2.1), below which no name exists (RFC
    /// 8020 2).
    Denied(&'a Held<A>),
    /// None of these.
    Miss,
}
