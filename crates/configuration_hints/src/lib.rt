//! Hints for a refused configuration: a likely correction, printed after the text of the fault. No
//! call allocates.
#![tactic(auto)]

mod hint;
mod keys;
mod limits;
mod names;
mod opened;
mod peers;
mod strings;
mod toml_text;

pub use hint::Hint;
pub use keys::hint_for_key;
pub use strings::hint_for_fault;
pub use toml_text::hint_for_text;
