//! Messages of the domain name system, read from octets: RFC 1035 section 4, with the data of
//! records by the shape of its type.
//!
//! A view judges without allocating: `question_is`, `is_whole`, `records`. `shape_of` is the only
//! table of types with names in their data (RFC 3597).

mod data;
mod header;
mod laws;
mod message;
mod question_ref;
mod records;
mod shape;
mod spans;
mod view;

pub use header::Header;
pub use laws::{
    messages_are_spelled, names_are_written_out, spans_are_records, what_stands_is_read,
};
pub use message::{Message, Question, Rdata, Record};
pub use question_ref::QuestionRef;
pub(crate) use shape::{Part, shape_of};
pub use spans::{Records, Span};
pub use view::MessageRef;
