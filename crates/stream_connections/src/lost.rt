//! The reasons for which a reply to a client is lost.

ghost use Rattle.std.specs.Prelude.{◌≡◌};
ghost use Rattle.stream_connections.specs.declared.lost.Lost.TheVariants.{Memory};
ghost use Rattle.stream_connections.specs.Serving.{is_over, lost_by};

use std::alloc::AllocError;
use std::io;
use std::io::ErrorKind;
use tcp_frames::FrameFault;

/// The reason for which a reply to a client on a connection is lost.
#[derive(Clone, Copy)]
pub enum Lost {
    /// Memory ran out. Nothing has changed.
    Memory,
    /// The reply has more octets than its length can say. Nothing has changed.
    TooLong,
    /// Too much is left that the client didn't take. Nothing has changed; the connection is to be
    /// closed.
    TooMuch,
    /// The stream takes nothing any more. The connection is to be closed.
    Gone,
}

impl Lost {
    /// Whether the connection is to be closed.
    pub fn is_over(self) -> bool
        ensures { result ≡ is_over self }
    {
        match self {
            Lost::Memory | Lost::TooLong => false,
            Lost::TooMuch | Lost::Gone => true,
        }
    }
}

impl From<AllocError> for Lost {
    ghost from_gives = { λ _ lost. lost ≡ Memory };

    fn from(_refusal: AllocError) -> Lost {
        Lost::Memory
    }
}

impl From<FrameFault> for Lost {
    ghost from_gives = { λ fault lost. lost ≡ lost_by fault };

    fn from(fault: FrameFault) -> Lost {
        match fault {
            FrameFault::Memory => Lost::Memory,
            FrameFault::TooLong => Lost::TooLong,
        }
    }
}

impl From<Lost> for io::Error {
    fn from(lost: Lost) -> io::Error {
        io::Error::from(match lost {
            Lost::Memory => ErrorKind::OutOfMemory,
            Lost::TooLong => ErrorKind::InvalidInput,
            Lost::TooMuch | Lost::Gone => ErrorKind::WouldBlock,
        })
    }
}
