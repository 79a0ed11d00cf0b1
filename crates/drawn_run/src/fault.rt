//! The faults of a run.

use std::alloc::AllocError;
use thiserror::Error;

/// The first fault of a run.
#[derive(Clone, Copy, Debug, Error)]
pub(crate) enum Fault {
    #[error("memory ran out, or a step returned an error")]
    Memory,
    #[error("a configuration was refused")]
    Configuration,
    #[error("a piece of a reply was not kept")]
    Unkept,
    #[error("something was done that nothing called for, or out of order")]
    Order,
    #[error("a path was closed that was not open")]
    Close,
    #[error("a query was not as drawn, or is none")]
    Query,
    #[error("a reply had no waiting question")]
    Nobody,
    #[error("a reply is none, or can't be read")]
    Reply,
    #[error("a limit was passed")]
    Limit,
    #[error("the report of more due was wrong")]
    More,
    #[error("a question waits without a query or to the end, or a query is open for none")]
    Lost,
    #[error("a reason of replies was never met")]
    Reasons,
}

impl From<AllocError> for Fault {
    fn from(_: AllocError) -> Fault {
        Fault::Memory
    }
}
