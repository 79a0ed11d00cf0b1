//! A wire in memory. Its caller chooses the arrivals, and the calls to refuse.
#![tactic(auto)]

mod script_wire;

pub use script_wire::{ScriptTurn, ScriptWire};
