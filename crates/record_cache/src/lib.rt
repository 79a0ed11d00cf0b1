//! A cache of the pieces of replies, each with the moment of its acceptance, at most one for a slot
//! and at most `capacity` in all. A full cache drops the least recently used entry.
#![tactic(auto)]

mod cache;
mod counts;
mod endings;
mod hashed;
mod held;
mod laws;
mod look_up_slot;

pub use cache::{Cache, Offered};
pub use endings::{ending, key_ending};
pub use held::Held;
pub use laws::{
    counts_tell_what_is_there, gone_only_so, kept_is_found, one_slot_is_the_same,
    promotion_changes_no_look_up, unkept_is_new,
};
pub use look_up_slot::LookUpSlot;
pub use trust_rank::{Body, Piece, Slot};
