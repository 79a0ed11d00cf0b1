//! The system calls of a wire over sockets. One function makes each call, and notes its arguments
//! and its answer. Nothing else makes a call, and nothing else notes one.
#![tactic(auto)]

mod calls;
mod noted;
mod receive_buffer;
mod sockets;

pub use calls::Calls;
pub use mio::event::Event;
pub use mio::{Events, Interest, Token};
pub use sockets::{DatagramSocket, Listener, Reports, Stream};
