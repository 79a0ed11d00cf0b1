//! DNS messages over TCP: two octets of length, high octet first, then the message (RFC 1035 4.2.2,
//! RFC 7766 8).
//!
//! `frame` makes the octets of one message. A `FrameReader` takes a stream in pieces, cut anywhere,
//! and returns the messages whole and in order. `Within` is a position inside the frames of a
//! stream, `Unsent` the octets that a slow stream has not taken yet.
#![tactic(auto)]

mod fault;
mod framing;
mod laws;
mod reading;
mod unsent;
mod writing;

pub use fault::FrameFault;
pub use framing::Within;
pub use laws::{
    all_frames_are_taken, cut_does_not_matter, frames_are_found, frames_are_unique,
    nothing_is_lost, pieces_continue, unfinished_has_no_frame,
};
pub use reading::FrameReader;
pub use unsent::Unsent;
pub use writing::frame;
