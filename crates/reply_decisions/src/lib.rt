//! Decides on a server's message, a failed path or the passing of time: answers, a further ask, or
//! failures. Nothing is changed.
#![tactic(auto)]

mod attempt;
mod delivery;
mod fate;
mod fates;
mod redirecting;
mod tick;

pub use attempt::on_failed_path;
pub use delivery::on_delivery;
pub use tick::on_tick;
