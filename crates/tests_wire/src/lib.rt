//! Tests of the loop, beyond contracts. Over a wire in memory: allocations succeed if there is
//! memory, and the script decides arrivals and refusals. Over sockets: each message reaches its
//! addressee.
#![tactic(auto)]

#[cfg(test)]
mod ages;
#[cfg(test)]
mod came;
#[cfg(test)]
mod clients;
#[cfg(test)]
mod faults;
#[cfg(test)]
mod idle;
#[cfg(test)]
mod puts;
#[cfg(test)]
mod refusals;
#[cfg(test)]
mod scripts;
#[cfg(test)]
mod servers;
#[cfg(test)]
mod sockets;
#[cfg(test)]
mod system;
#[cfg(test)]
mod turns;
#[cfg(test)]
mod watched;
#[cfg(test)]
mod worked;
