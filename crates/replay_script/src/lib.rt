//! Scripts: a configuration, a line `---`, and a line for each event. A script runs on a new
//! forwarder, and prints a line for each action.
#![tactic(auto)]

mod actions;
mod events;
mod fault;
mod input;
mod output;
mod replay;

pub use actions::print;
pub use events::{MOST_LINES, decimal, input_of_line};
pub use fault::ReplayFault;
pub use input::{ScriptParts, config_in, parts, read_config, read_limited};
pub use replay::replay_run;
