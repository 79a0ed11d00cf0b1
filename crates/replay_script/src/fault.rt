//! The faults that end a replay.

ghost use Rattle.std.specs.Prelude.{◌≡◌};
ghost use Rattle.std.specs.IoError.{error_kind};
ghost use Rattle.replay_script.specs.declared.fault.ReplayFault.TheVariants.{Memory};
ghost use Rattle.replay_script.specs.Faults.{device_fault, replay_fault};

use std::alloc::AllocError;
use std::io;
use suffix_routes::ConfigFault;
use thiserror::Error;

/// The reason of a replay's end. Its text is the printed line.
#[derive(Clone, Copy, PartialEq, Eq, Debug, Error)]
pub enum ReplayFault {
    /// The configuration is refused, for a reason other than memory.
    #[error("fault {}", .0.number())]
    Config(ConfigFault),
    /// The event line with this number, from 1, is refused; 0 if no line `---` ends the
    /// configuration.
    #[error("line {0}")]
    Line(u32),
    /// Memory ran out.
    #[error("memory")]
    Memory,
    /// Reading or writing failed, or the input is longer than its limit.
    #[error("device")]
    Device,
}

impl From<AllocError> for ReplayFault {
    ghost from_gives = { λ _ e. e ≡ Memory };

    fn from(_: AllocError) -> ReplayFault {
        ReplayFault::Memory
    }
}

impl From<io::Error> for ReplayFault {
    ghost from_gives = { λ error e. e ≡ device_fault (error_kind error) };

    fn from(error: io::Error) -> ReplayFault {
        match error.kind() {
            io::ErrorKind::OutOfMemory => ReplayFault::Memory,
            _ => ReplayFault::Device,
        }
    }
}

impl From<ConfigFault> for ReplayFault {
    ghost from_gives = { λ fault e. e ≡ replay_fault fault };

    fn from(fault: ConfigFault) -> ReplayFault {
        match fault {
            ConfigFault::Memory => ReplayFault::Memory,
            _ => ReplayFault::Config(fault),
        }
    }
}
