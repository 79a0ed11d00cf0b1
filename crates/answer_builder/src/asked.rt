//! A client's request, and its transport.

ghost use Rattle.std.specs.Prelude.{◌≡◌};

use dns_message::{Question, QuestionRef};
use std::alloc::{Allocator, Global};
use std::marker::Model;

/// The part of a client's request repeated in the answer (RFC 1035 4.1.1 and 4.1.2).
#[derive(Drop)]
pub struct Asked<A: Allocator = Global> {
    /// The identifier.
    pub id: u16,
    /// 4 bits, as they came.
    pub opcode: u8,
    /// Recursion is desired.
    pub rd: bool,
    /// The question in the client's spelling; `None` for an answer without a question.
    pub question: Option<Question<A>>,
}

impl<A: Allocator> Model for Asked<A> {
    ghost use Rattle.answer_builder.specs.Values.{Asked};

    ghost Value = { Asked };

    ghost view = { λ a. record { id = a.id; opcode = a.opcode; rd = a.rd; question = a.question } };
}

impl<A: Allocator> Asked<A> {
    /// This part with the question borrowed.
    pub fn borrowed(&self) -> AskedRef<'_>
        ensures { result ≡ self.now }
    {
        let question = match &self.question {
            None => None,
            Some(question) => Some(QuestionRef::of(question)),
        };
        AskedRef {
            id: self.id,
            opcode: self.opcode,
            rd: self.rd,
            question,
        }
    }
}

/// A client's request, with the question in place. Contracts see an `Asked`.
#[derive(Drop)]
pub struct AskedRef<'a> {
    /// The identifier.
    pub id: u16,
    /// 4 bits, as they came.
    pub opcode: u8,
    /// Recursion is desired.
    pub rd: bool,
    /// The question in the client's spelling; `None` for an answer without a question.
    pub question: Option<QuestionRef<'a>>,
}

impl<'a> Model for AskedRef<'a> {
    ghost use Rattle.answer_builder.specs.Values.{Asked};

    ghost Value = { Asked };

    ghost view = { λ a. record { id = a.id; opcode = a.opcode; rd = a.rd; question = a.question } };
}

/// The transport of an answer.
#[derive(Clone, Copy, Debug, PartialEq, Eq)]
pub enum Transport {
    /// At most 512 octets (RFC 1035 4.2.1).
    Udp,
    /// At most 65,535 octets (RFC 1035 4.2.2).
    Tcp,
}
