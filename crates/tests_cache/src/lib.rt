//! Tests of `trust_rank`, `record_cache` and `negative_cache`: the cache agrees with a plain list,
//! also with many names; a look-up of each kind is copied; and allocations are refused.
#![tactic(auto)]

#[cfg(test)]
mod agreement;
#[cfg(test)]
mod copies;
#[cfg(test)]
mod counted;
#[cfg(test)]
mod look_ups;
#[cfg(test)]
mod many;
#[cfg(test)]
mod memory;
#[cfg(test)]
mod plain;
#[cfg(test)]
mod samples;
#[cfg(test)]
mod walks;
