//! Takes the record sets and denials for a question from a reply, each with a rank: its degree of
//! trust.
#![tactic(auto)]

mod denials;
mod laws;
mod piece;
mod reply;
mod rows;
mod servers;
mod sets;
mod slot;
mod walk;
mod walking;

pub use dns_message::types;
pub use laws::{pieces_are_writable, servers_fit, walk_leads};
pub use piece::{Body, Piece};
pub use reply::target_of;
pub use rows::Rows;
pub use slot::Slot;
pub use walk::{End, Walk};
pub use walking::{MOST_ALIASES, pieces};
