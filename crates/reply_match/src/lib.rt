//! Judges octets that arrive on the path of an ask: whether they are the reply, and how far the
//! reply can be used.
#![tactic(auto)]

mod judging;
mod laws;
mod verdict;

pub use judging::judge;
pub use laws::{strangers_do_not_match, whole_is_read};
pub use verdict::{Judged, Verdict};
