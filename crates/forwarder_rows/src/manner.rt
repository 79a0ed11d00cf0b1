//! How the file of a row is run.

use crate::narrow::is_wide;
use crate::printed::Printed;
use crate::probing::run_stepped;
use crate::script::Way;
use forwarder_commands::check_file;
use forwarder_commands::scripts::{ReplayFault, replay_run};
use std::alloc::Global;
use std::rt::Files;
use std::{fs, io};

/// How the file of a row is run.
#[derive(Clone, Copy)]
pub(crate) enum Manner {
    /// A script, replayed.
    Plain,
    /// A script, with its lines run one by one in this way.
    Stepped(Way),
    /// A configuration, checked.
    Check,
}

impl Manner {
    /// The name of the manner in a reported difference.
    pub(crate) fn name(self) -> &'static str {
        match self {
            Manner::Plain => "replayed",
            Manner::Stepped(Way::OwnWords) => "replayed and probed",
            Manner::Stepped(Way::SameWords) => "stepped and probed",
            Manner::Stepped(Way::Counted) => "stepped and counted",
            Manner::Stepped(Way::Narrow) => "replayed with little memory",
            Manner::Check => "checked",
        }
    }

    /// Whether a row is not run in this manner.
    pub(crate) fn leaves_out(self, row: &str) -> bool {
        matches!(self, Manner::Stepped(Way::Narrow)) && is_wide(row)
    }
}

/// The output of the program for a row.
#[derive(Drop)]
pub(crate) struct Output {
    /// The printed lines.
    pub stdout: Vec<u8>,
    /// The line with the fault, or nothing.
    pub stderr: String,
}

/// Runs the file of a row.
pub(crate) fn output_of<R: Files + AllocGlobal>(
    rt: &R,
    manner: Manner,
    row: &str,
) -> io::Result<Output> {
    let alloc = rt.alloc();
    let mut stdout = Vec::new(alloc);
    let ended = match manner {
        Manner::Check => check(alloc, row, &mut stdout),
        Manner::Plain => {
            let file = fs::read(rt, row)?;
            replay_run(alloc, alloc, &mut file.as_slice(), &mut stdout)
        }
        Manner::Stepped(way) => run_stepped(alloc, &fs::read(rt, row)?, way, &mut stdout),
    };
    let stderr = match ended {
        Ok(()) => String::new(alloc),
        Err(fault) => format!(in alloc; "{fault}\n")?,
    };
    Ok(Output { stdout, stderr })
}

/// Checks the configuration of a row as the command does, by the file's name, and gives what the
/// command prints on standard output.
fn check(alloc: Global, row: &str, stdout: &mut Vec<u8>) -> Result<(), ReplayFault> {
    let printed = Printed::new(alloc);
    let ended = check_file(&printed, row.as_bytes(), &mut io::writer(&printed));
    *stdout = printed.into_octets();
    ended
}
