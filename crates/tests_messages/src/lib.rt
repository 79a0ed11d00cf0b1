//! Tests of `dns_message`: octets of worked replies, faults in their order, refused allocations,
//! and a sweep over changed messages. In the sweep, judging without allocation agrees with reading,
//! and each readable message is written and read again.
#![tactic(auto)]

#[cfg(test)]
mod data_tests;
#[cfg(test)]
mod equal;
#[cfg(test)]
mod memory_tests;
#[cfg(test)]
mod messages;
#[cfg(test)]
mod reading_tests;
#[cfg(test)]
mod shape_tests;
#[cfg(test)]
mod shapes;
#[cfg(test)]
mod sweeps;
#[cfg(test)]
mod writing_tests;
