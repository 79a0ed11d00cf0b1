//! Proves for every row of the table: if the history explains a forwarder's state before the row, it
//! explains the state after the row. So every run is sound.
#![tactic(auto)]

mod laws;

pub use laws::{rows_keep_what_explains, runs_are_sound};
