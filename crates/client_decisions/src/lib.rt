//! Decides on a client's message: nothing, an answer, a failure, or a waiting question, with the
//! first ask of its inquiry if no ask is listed. Nothing is changed.
#![tactic(auto)]

mod client;
mod request;

pub use client::on_client;
pub use step_actions::{Decision, Due, Kept, StepStartRef, first_due};
