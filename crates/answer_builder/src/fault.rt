//! Why there is no answer.

ghost use Rattle.std.specs.Prelude.{◌≡◌};
ghost use Rattle.answer_builder.specs.declared.fault.Fault.TheVariants.{Memory};

use std::alloc::AllocError;
use thiserror::Error;

/// Why there is no answer.
#[derive(Clone, Copy, Debug, PartialEq, Eq, Error)]
pub enum Fault {
    /// Over TCP, the answer has more octets than the two octets of a length can say: more than
    /// 65,535 (RFC 1035 4.2.2).
    #[error("an answer of over 65,535 octets")]
    TooLarge,
    /// Memory ran out.
    #[error("memory ran out")]
    Memory,
}

impl From<AllocError> for Fault {
    ghost from_gives = { λ _ fault. fault ≡ Memory };

    fn from(_refusal: AllocError) -> Fault {
        Fault::Memory
    }
}
