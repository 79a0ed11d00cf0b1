//! Worked histories: for each part of a claim, one that meets it and a neighbour that breaks it.
#![tactic(auto)]

mod laws;

pub use laws::steps_ask_and_close_once;
