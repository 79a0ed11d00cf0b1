//! Tests of `forwarder_commands`, beyond contracts and scripts: arguments, input, output, and exit
//! status.
#![tactic(auto)]

#[cfg(test)]
mod commands;
#[cfg(test)]
mod faults;
