//! Messages, put together from borrowed parts.

ghost use Rattle.std.specs.Prelude.{◌≡◌, length};
ghost use Rattle.dns_message.specs.Borrowed.{data_of};

use crate::reading::{Header, QuestionRef, Rdata};
use dns_name::Name;
use std::alloc::{Allocator, Global};
use std::marker::Model;

/// The data of the records of a set.
#[derive(Drop)]
pub enum DataRef<'a, A: Allocator = Global> {
    /// Of each record, in order.
    Rows(&'a [Rdata<A>]),
    /// Of the only record.
    Row(&'a Rdata<A>),
}

impl<'a, A: Allocator> DataRef<'a, A> {
    /// The number of records.
    pub(crate) fn count(&self) -> usize
        ensures { result ≡ length (data_of self.now) }
    {
        match self {
            DataRef::Rows(rows) => rows.len(),
            DataRef::Row(_) => 1,
        }
    }
}

/// Records of one owner, type, class and TTL. Their data is borrowed and has the shape of the type,
/// so it is written unchecked. Contracts see the list of these records.
#[derive(Drop)]
pub struct RowsRef<'a, A: Allocator = Global> {
    pub owner: &'a Name<A>,
    pub kind: u16,
    pub class: u16,
    /// In seconds.
    pub ttl: u32,
    pub data: DataRef<'a, A>,
}

impl<'a, A: Allocator> Model for RowsRef<'a, A> {
    ghost use Rattle.std.specs.Prelude.{List};
    ghost use Rattle.std.specs.List.{AllByRecursion};
    ghost use Rattle.dns_message.specs.Data.{IsShaped};
    ghost use Rattle.dns_message.specs.Values.{Record};
    ghost use Rattle.dns_message.specs.Borrowed.{data_of, records_of};

    ghost Value = { List Record };

    ghost view = { λ r. records_of r.owner.now r.kind r.class r.ttl (data_of r.data) };

    ghost invariant = { λ r. AllByRecursion (IsShaped r.kind) (data_of r.data) };
}

/// A message of borrowed parts, without an additional section. Contracts see the message.
#[derive(Drop)]
pub struct MessageParts<'a, A: Allocator = Global> {
    /// The header; its counts are not looked at.
    pub header: Header,
    pub question: Option<QuestionRef<'a>>,
    pub answers: &'a [RowsRef<'a, A>],
    pub authority: &'a [RowsRef<'a, A>],
}

impl<'a, A: Allocator> Model for MessageParts<'a, A> {
    ghost use Rattle.dns_message.specs.Values.{Message};
    ghost use Rattle.dns_message.specs.Borrowed.{message_of};

    ghost Value = { Message };

    ghost view = { λ m. message_of m.header m.question m.answers.now m.authority.now };
}
