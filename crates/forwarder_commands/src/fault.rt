//! The faults at which the program ends.

ghost use Rattle.std.specs.Prelude.{◌≡◌};
ghost use Rattle.std.specs.IoError.{error_kind};
ghost use Rattle.replay_script.specs.Faults.{device_fault};
ghost use Rattle.forwarder_commands.specs.declared.fault.Fault.TheVariants.{Stopped};
ghost use Rattle.forwarder_commands.specs.Statuses.{status_of};

use replay_script::ReplayFault;
use std::io;
use thiserror::Error;

/// Why the program stops.
#[derive(Clone, Copy, PartialEq, Eq, Debug, Error)]
pub enum Fault {
    /// The arguments are of no command.
    #[error("usage: forwarder check FILE, replay, or serve FILE TURNS")]
    Usage,
    /// The command stopped.
    #[error("{0}")]
    Stopped(ReplayFault),
}

impl Fault {
    /// The program's exit status.
    pub fn status(&self) -> u8
        ensures { result ≡ status_of self.now }
    {
        match self {
            Fault::Usage => 1,
            Fault::Stopped(ReplayFault::Config(_)) => 2,
            Fault::Stopped(ReplayFault::Line(_)) => 3,
            Fault::Stopped(ReplayFault::Memory) => 4,
            Fault::Stopped(ReplayFault::Device) => 5,
        }
    }
}

impl From<ReplayFault> for Fault {
    ghost from_gives = { λ fault e. e ≡ Stopped fault };

    fn from(fault: ReplayFault) -> Fault {
        Fault::Stopped(fault)
    }
}

impl From<io::Error> for Fault {
    ghost from_gives = { λ error e. e ≡ Stopped (device_fault (error_kind error)) };

    fn from(error: io::Error) -> Fault {
        Fault::Stopped(ReplayFault::from(error))
    }
}
