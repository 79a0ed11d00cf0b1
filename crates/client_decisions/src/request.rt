//! A client's message: its header and its first question.

ghost use Rattle.std.specs.Prelude.{◌≡◌, true, false, MatchOption, IfOk, None, Some, Ok};
ghost use Rattle.dns_message.specs.Header.{header_in};
ghost use Rattle.dns_message.specs.Messages.{first_question};
ghost use Rattle.dns_message.specs.Questions.{one_question, question_read, is_unserved};
ghost use Rattle.step_values.specs.Requests.{is_taken};

use dns_message::{Header, MessageRef, Question, QuestionRef, types};
use std::alloc::{AllocError, Allocator};

/// The header of a client's message, unless the message is dropped: fewer than 12 or more than
/// 65,535 octets, or itself a reply.
#[tactic(auto, unfolding(dns_message::specs::Header::header_of))]
pub(crate) fn taken_header(bytes: &[u8]) -> Option<Header>
    ensures { MatchOption result (is_taken bytes.now ≡ false) (λ header. (is_taken bytes.now ≡ true)
        × (header ≡ header_in bytes.now)) }
{
    if bytes.len() > 65535 {
        return None;
    }
    let header = Header::read(bytes)?;
    if header.qr {
        return None;
    }
    Some(header)
}

/// The view of a message with exactly one, readable question.
pub(crate) fn with_one_question<'a>(bytes: &'a [u8], header: &Header) -> Option<MessageRef<'a>>
    requires { header.now ≡ header_in bytes.now }
    ensures { MatchOption result (one_question bytes.now ≡ None) (λ message. question_read (first_question message)
        ≡ one_question bytes.now) }
{
    if header.counts[0] != 1 {
        return None;
    }
    MessageRef::view(bytes).ok()
}

/// A copy of the first question of a message.
pub(crate) fn owned_question<A: Allocator>(
    alloc: A,
    message: &MessageRef<'_>,
) -> Result<Question<A>, AllocError>
    ensures { IfOk result (λ question. first_question message.now ≡ Ok question) }
{
    match message.question(alloc) {
        Ok(question) => Ok(question),
        Err(_) => Err(AllocError),
    }
}

/// Whether a question is for no data, or for more than one type or class (RFC 1035 3.2.3 and 3.2.5,
/// RFC 6895 3.1).
pub(crate) fn is_not_served(question: &QuestionRef<'_>) -> bool
    ensures { result ≡ is_unserved question.now }
{
    let kind = question.kind();
    let is_meta = kind >= types::FIRST_META && kind <= types::ANY;
    kind == 0 || kind == types::OPT || is_meta || question.class() == types::ANY_CLASS
}
