//! The waiting questions of clients, in the order of arrival. Those with the same wanted question
//! are found by a binary search.
#![tactic(auto)]

mod keyed;
mod orders;
mod table;
mod waiting;
mod waiting_questions;

pub use keyed::KeyedWaiting;
pub use waiting::{Onward, Request, Waiting};
pub use waiting_questions::{WaitingFor, WaitingQuestions};
