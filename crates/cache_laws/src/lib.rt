//! Laws that restate, in the words of the RFCs, the definitions of replies and look-ups. The
//! functions have empty bodies.
#![tactic(auto)]

mod entries;
mod replies;
mod shared;

pub use entries::look_ups_find_in_order;
pub use replies::{
    carried_exactly, denials_live_by_their_soa, denies_exactly, no_data_exactly,
    ranks_are_by_authority, servers_are_all, sets_are_whole, top_bit_is_none,
};
pub use shared::{replaces_exactly, serves_exactly};
