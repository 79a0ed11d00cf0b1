//! The forwarder, one step at a time. A step takes a moment, random words and an event, and returns
//! actions. A step reads no clock, opens no socket and draws no random number.
#![tactic(auto)]

mod deciding;
mod forwarder;

pub use forwarder::Forwarder;
pub use step_values::{Action, Actions, Client, Event, Outcome, Path, Step, StepInput, Why};
