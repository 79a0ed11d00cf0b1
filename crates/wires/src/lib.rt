//! The interface between the loop and the carrier of its messages: arrivals, actions to put,
//! moments and random words.
#![tactic(auto)]

mod wire;

pub use wire::{Arrival, Wire, WireFault};
