//! Tests of `suffix_routes` and `configuration_hints`: defaults, the texts of faults and hints, and
//! allocations that succeed if there is memory.
#![tactic(auto)]

#[cfg(test)]
mod accepted;
#[cfg(test)]
mod copied;
#[cfg(test)]
mod hints;
#[cfg(test)]
mod memory;
#[cfg(test)]
mod routed;
#[cfg(test)]
mod said;
#[cfg(test)]
mod shown;
