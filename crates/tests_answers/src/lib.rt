//! Tests of `answer_builder`: refused allocations, the largest answer, and texts of faults.
#![tactic(auto)]

#[cfg(test)]
mod memory;
#[cfg(test)]
mod samples;
#[cfg(test)]
mod texts;
