//! Tests of `tcp_frames`, `outstanding` and `reply_match`: allocations succeed if there is memory,
//! calls that promise not to allocate do not, and faults have texts.
#![tactic(auto)]

#[cfg(test)]
mod asks;
#[cfg(test)]
mod frames;
#[cfg(test)]
mod replies;
#[cfg(test)]
mod unsent;
