//! What the turns of the loop work on.

use crate::counts::Served;
use forwarder_core::Forwarder;
use std::alloc::Allocator;
use std::hash::BuildHasher;
use wires::Wire;

/// A wire, the forwarder that serves it, and the counts so far.
#[derive(Drop)]
pub(crate) struct Loop<'w, 'f, H: BuildHasher + Drop, A: Allocator + Copy, W: Wire<A>> {
    pub wire: &'w mut W,
    pub forwarder: &'f mut Forwarder<H, A>,
    pub counts: Served,
}
