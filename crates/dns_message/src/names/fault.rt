//! Why octets are no message, or a message could not be read or written.

ghost use Rattle.std.specs.Prelude.{◌≡◌};
ghost use Rattle.dns_message.specs.declared.names.fault.Fault.TheVariants.{Memory};

use std::alloc::{AllocError, AllocFailed};
use thiserror::Error;

/// The first fault from the front.
#[derive(Clone, Copy, Debug, PartialEq, Eq, Error)]
pub enum Fault {
    /// A needed octet is missing.
    #[error("the octets end too soon")]
    Short,
    /// The first octet of a label or a pointer has the high bits 01 or 10 (RFC 1035 4.1.4).
    #[error("no label and no pointer begins so")]
    LabelForm,
    /// A pointer does not lead to a place before its own run of labels.
    #[error("a pointer does not lead back")]
    Pointer,
    /// A name has more than 255 octets (RFC 1035 2.3.4).
    #[error("a name has more than 255 octets")]
    NameLong,
    /// The data of a record does not have the shape of its type, or does not fill RDLENGTH exactly.
    #[error("the data of a record is not of its shape")]
    Rdata,
    /// The message would pass the limit.
    #[error("the message is too large")]
    TooLarge,
    /// An allocation was refused.
    #[error("memory ran out")]
    Memory,
    /// QDCOUNT is 0.
    #[error("the message has no question")]
    NoQuestion,
}

impl From<AllocError> for Fault {
    ghost from_gives = { λ _ e. e ≡ Memory };

    fn from(_e: AllocError) -> Fault {
        Fault::Memory
    }
}

impl<T: Drop> From<AllocFailed<T>> for Fault {
    ghost from_gives = { λ _ e. e ≡ Memory };

    fn from(_e: AllocFailed<T>) -> Fault {
        Fault::Memory
    }
}
