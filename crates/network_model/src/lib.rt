//! Runs of the forwarder: over a list of events; step by step, with the history, which is sound at
//! each moment; and over a wire, by the loop of `serving_loop`.
#![tactic(auto)]

mod recorded;
mod run;

pub use recorded::Recorded;
pub use run::run_list;
pub use script_wire::{ScriptTurn, ScriptWire};
pub use serving_loop::{Event, Forwarder, Outcome, Served, Step, StepInput, serve};
pub use wires::{Arrival, Wire, WireFault};
