//! A wire's sockets that may be ready, and the next to try. An `Origin` names a socket, a
//! `Readiness` lists sockets by their tokens.
#![tactic(auto)]

mod origin;
mod readiness;

pub use origin::Origin;
pub use readiness::Readiness;
