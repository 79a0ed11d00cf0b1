//! The commands of the program: `check FILE` says whether a configuration is accepted, `replay`
//! runs the events of a script and prints each action, and `serve FILE TURNS` serves clients over
//! sockets.
#![tactic(auto)]

mod arguments;
mod checked;
mod commands;
mod counted;
mod fault;
mod files;
mod refused;
mod saying;
mod serving;
mod wanted_turns;

pub use arguments::{LONGEST, argument, count, text};
pub use commands::{Command, check_file, command_of, load, run, serve_file};
pub use fault::Fault;
pub use replay_script as scripts;
pub use serving::serve_config;
pub use wanted_turns::{Turns, read_turns};
