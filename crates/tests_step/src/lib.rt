//! Tests of the step, its values and its runs, beyond contracts: allocations succeed if there is
//! memory, a run allocates no more than it should, and some calls do not allocate.
#![tactic(auto)]

#[cfg(test)]
mod many;
#[cfg(test)]
mod quiet;
#[cfg(test)]
mod runs;
#[cfg(test)]
mod values;
#[cfg(test)]
mod worked;
