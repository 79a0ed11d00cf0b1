//! The forwarder's program: `forwarder check FILE` says whether a configuration is accepted,
//! `forwarder replay` runs the events of a script and prints each action, and `forwarder serve FILE
//! TURNS` serves clients over sockets.
#![tactic(auto)]

use forwarder_commands::run;
use std::process::ExitCode;

fn main(rt: HostRuntime) -> ExitCode {
    match run(&rt) {
        Ok(()) => ExitCode::SUCCESS,
        Err(fault) => {
            // If standard error fails too, only the status says so.
            let _ = eprintln!(rt; "{fault}");
            ExitCode::from(fault.status())
        }
    }
}
