//! Look-ups in the cache along CNAMEs (RFC 1034 3.6.2), the promotion of the used entries, copies
//! of aliases, and offers of a reply's pieces to the cache.
#![tactic(auto)]

mod chain;
mod laws;
mod looked;
mod looking;
mod offers;
mod slots;
mod stale_look_up;
mod trail;

pub use chain::copies;
pub use laws::same_questions_are_looked_up_alike;
pub use looked::{LookUp, LookUpEnd};
pub use looking::look_up;
pub use negative_cache::CacheAt;
pub use offers::{held_from, offer_all};
pub use slots::{Slots, promote_all};
pub use stale_look_up::look_up_stale;
