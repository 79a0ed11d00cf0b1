//! Messages of the domain name system, written as octets: RFC 1035 section 4, with pointers to
//! names written before.
//!
//! A vector with room does not grow. From the 17th name on an ordered map is allocated.

mod borrowed;
mod data;
mod header;
mod laws;
mod message;
mod pointers;
mod records;
mod writer;

pub use borrowed::{DataRef, MessageParts, RowsRef};
pub use header::reply_front;
pub use laws::{what_is_read_can_be_written, what_is_written_is_spelled};
pub use message::{write, write_parts};
