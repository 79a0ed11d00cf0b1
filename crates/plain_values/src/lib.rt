//! Lists, octets and results whose contracts leave memory out. `specs/FirstFault.antt`, without
//! code, defines results: a value, or the first fault.
#![tactic(auto)]

mod few_list;
mod plain_list;
mod short_octets;

pub use few_list::FewList;
pub use plain_list::{Octets, PlainList};
pub use short_octets::ShortOctets;
