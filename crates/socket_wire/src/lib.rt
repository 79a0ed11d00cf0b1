//! A wire over sockets: clients and servers, by UDP and over TCP. No call waits for a peer.
#![tactic(auto)]

mod address;
mod answers;
mod asks;
mod listeners;
mod log;
mod moments;
mod noted;
mod numbers;
mod sockets;
mod spare;
mod wire;
mod words;

pub use wire::MioWire;
