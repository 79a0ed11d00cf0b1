//! Proves that every row of the table uses the standing pieces, if the cache has room for them. So
//! every run meets all claims.
#![tactic(auto)]

mod laws;

pub use laws::{nobody_waits_for_what_came, rows_keep_what_fully_explains, runs_serve_truly};
