//! Writes the queries and replies of a step, as actions with their octets.
#![tactic(auto)]

mod answers;
mod queries;
mod refusals;
mod stale_answers;
mod texts;

pub use answers::{Answers, answer};
pub use queries::ask;
pub use refusals::{failure, refusal};
pub use stale_answers::{local_answer, stale_answer};
pub use step_table::{chains, waiting};
