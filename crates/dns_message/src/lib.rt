//! DNS messages (RFC 1035 4), read from octets and written as octets. The type of a record gives
//! its data a shape.
#![tactic(auto)]

pub mod codes;
mod laws;
mod names;
mod reading;
pub mod types;
mod writing;

pub use dns_name::{FewList, Name, NameKey, Octets, PlainList};
pub use laws::what_is_written_is_read_back;
pub use names::{Bound, Fault, skip_name};
pub use reading::{
    Header, Message, MessageRef, Question, QuestionRef, Rdata, Record, Records, Span,
    messages_are_spelled, names_are_written_out, spans_are_records, what_stands_is_read,
};
pub use writing::{
    DataRef, MessageParts, RowsRef, reply_front, what_is_read_can_be_written,
    what_is_written_is_spelled, write, write_parts,
};
