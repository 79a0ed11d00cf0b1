//! Names and numbers at a place of a message, read with the first fault: RFC 1035 2.3.2 and 4.1.4.
//!
//! `read_name` alone allocates; `walk` goes by labels. `key_at` makes the key, `put_labels` fills a
//! buffer, `skip_name` returns the place after the name. Each may return the first `Fault`. The
//! caller's tables `ends` and `sizes` remember pointers' targets and their lengths. Empty ones
//! change only the cost.

mod fault;
mod labels;
mod numbers;
mod shortcuts;
mod sizes;
mod walk;
mod whole;

pub use fault::Fault;
pub(crate) use labels::put_labels;
pub(crate) use numbers::{number16, number32};
pub(crate) use shortcuts::{PLACES, SMALL};
pub use walk::Bound;
pub(crate) use walk::part;
pub use whole::skip_name;
pub(crate) use whole::{key_at, read_name, readable_name_end, skip_same_name};
