//! The values that enter and leave a step: events, actions, reasons, outcomes.
#![tactic(auto)]

mod action;
mod event;
mod step;

pub use action::{Action, Actions, Why};
pub use event::{Client, Event};
pub use outstanding::{Ask, Path};
pub use step::{Outcome, Step, StepInput};
