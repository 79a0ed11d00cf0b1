//! Runs each worked row of a folder, and prints each difference from the expected lines.
#![tactic(auto)]

mod beginnings;
mod comparison;
mod folder;
mod manner;
mod narrow;
mod printed;
mod probing;
mod restarting;
mod rows;
mod script;
mod sparing;
mod tally;

use crate::tally::Tally;
use std::process::ExitCode;
use std::rt::{Env, Files};
use std::{env, io};

fn main(rt: HostRuntime) -> ExitCode {
    match run(&rt) {
        Ok(Some(tally)) if tally.is_well() => ExitCode::SUCCESS,
        Ok(Some(_)) => ExitCode::FAILURE,
        Ok(None) => {
            let _ = eprintln!(rt; "usage: forwarder_rows FOLDER");
            ExitCode::from(2)
        }
        Err(error) => {
            let _ = eprintln!(rt; "{error}");
            ExitCode::from(2)
        }
    }
}

/// Runs the rows of the folder named by the only argument; `None` for any other number of
/// arguments.
fn run<R: Env + Files + Print + AllocGlobal + Clone + Drop>(rt: &R) -> io::Result<Option<Tally>> {
    let mut args = env::args(rt)?.skip(1);
    let (Some(folder), None) = (args.next(), args.next()) else {
        return Ok(None);
    };
    Ok(Some(rows::run_all(rt, folder.as_str())?))
}
