//! Why a message gets no frame.

ghost use Rattle.std.specs.Prelude.{◌≡◌};
ghost use Rattle.tcp_frames.specs.declared.fault.FrameFault.TheVariants.{Memory};

use std::alloc::AllocError;
use thiserror::Error;

/// Why a message gets no frame.
#[derive(Clone, Copy, Debug, PartialEq, Eq, Error)]
pub enum FrameFault {
    /// Memory ran out.
    #[error("memory ran out")]
    Memory,
    /// The message has more octets than the two octets of a length can say: more than 65,535 (RFC
    /// 1035 4.2.2).
    #[error("a message of over 65,535 octets")]
    TooLong,
}

impl From<AllocError> for FrameFault {
    ghost from_gives = { λ _ fault. fault ≡ Memory };

    fn from(_refusal: AllocError) -> FrameFault {
        FrameFault::Memory
    }
}
