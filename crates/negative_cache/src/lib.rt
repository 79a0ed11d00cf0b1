//! Finds the cached set, alias, NODATA or name error for a question; a name error also at a name
//! above, on the name's route (RFC 2308, RFC 8020).
#![tactic(auto)]

mod cache_at;
mod errors;
mod finding;
mod found;
mod laws;
mod living;
mod showing;
mod stale;

pub use cache_at::CacheAt;
pub use finding::find;
pub use found::Found;
pub use laws::{
    found_fits, found_is_settled, nearest_is_found, nothing_is_found_of_denied, shown_is_replaced,
    stale_fits, stale_is_settled,
};
pub use record_cache::{Cache, Held, LookUpSlot, Offered};
pub use showing::shown;
pub use stale::find_stale;
