//! Tests of `dns_name`: a name's octets, the first fault, and allocations that succeed if there is
//! memory. Tests of `refusing_allocator`, which refuses allocations in all such tests.
#![tactic(auto)]

#[cfg(test)]
mod names;
#[cfg(test)]
mod refusing;
