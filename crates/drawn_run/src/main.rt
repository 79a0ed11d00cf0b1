//! Passes drawn events to a forwarder with ample memory: no step may be refused, no question lost,
//! and none answered twice. Prints counts, or the number of the faulty event.
#![tactic(auto)]

mod draws;
mod events;
mod fault;
mod judging;
mod ledger;
mod octets;
mod questions;
mod replies;
mod run;
mod texts;
mod turns;

use crate::run::{Run, SEED};
use std::process::ExitCode;

fn main(rt: HostRuntime) -> ExitCode {
    let mut run = Run::new(rt.alloc());
    let ended = run.run(rt.alloc());
    let number = run.number;
    match ended {
        Ok(()) => {
            let _ = println!(&rt; "{number} events, 0 lost, 0 unkept");
            ExitCode::SUCCESS
        }
        Err(fault) => {
            let _ = println!(&rt; "seed {SEED}, event {number}: {fault}");
            ExitCode::FAILURE
        }
    }
}
