//! The loop of the service over a wire. It turns the wire's arrivals into events of the forwarder,
//! and puts the actions on the wire.
#![tactic(auto)]

mod counts;
mod handing;
mod looping;
mod serving;
mod streams;

pub use counts::Served;
pub use forwarder_core::{Event, Forwarder, Outcome, Step, StepInput};
pub use serving::serve;
