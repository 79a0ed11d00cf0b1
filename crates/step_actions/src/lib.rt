//! Makes the decision of a step: its actions, with texts from `step_texts`, and its change of the
//! forwarder, with the memory for the change.
#![tactic(auto)]

mod attempts;
mod decision;
mod due;
mod fate;
mod kept;
mod lists;
mod out_of_tries;
mod replies;
mod step_start;

pub use attempts::{Attempt, Drawn, by_udp, draw_connection, freed_port, new_ask, plan};
pub use decision::{Change, Decision, Opening, Preferred, Redirect};
pub use due::{Due, Oldest, first_due, is_live};
pub use fate::{Fate, fate_of, redirected};
pub use kept::Kept;
pub use out_of_tries::last_replies;
pub use replies::{answers_to, close_path, close_paths, failures};
pub use step_start::{StepStartRef, nothing};
pub use step_texts as texts;
pub use step_texts::{chains, waiting};
