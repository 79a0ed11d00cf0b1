//! Judges octets as the reply to an ask, where they lie. Nothing here allocates.

ghost use Rattle.std.specs.Prelude.{◌≡◌, true, false, MatchOption};
ghost use Rattle.dns_message.specs.Header.{header_in};
ghost use Rattle.dns_message.specs.Messages.{message_of};
ghost use Rattle.dns_message.specs.Questions.{one_question};
ghost use Rattle.reply_match.specs.Judged.{IsViewOf, verdict_of};
ghost use Rattle.reply_match.specs.Questions.{asks_this};
ghost use Rattle.reply_match.specs.Verdicts.{is_reply, judge, judged_whole};

use crate::verdict::Judged;
use dns_message::{Header, MessageRef, Question};
use outstanding::{Ask, Peer};
use std::alloc::Allocator;

/// Judges octets from a peer as the reply to an ask: the first verdict that holds, in the order of
/// `Verdict`. So an RCODE other than 0 and 3 comes before an unreadable message. A whole message
/// comes with its view. Whether the ask is still open is not looked at.
pub fn judge<'a, A: Allocator>(ask: &Ask<A>, from: Peer, bytes: &'a [u8]) -> Judged<'a>
    ensures verdict { verdict_of result ≡ judge ask.now from bytes.now }
    ensures view { IsViewOf bytes.now result }
{
    let Some(header) = reply_header(ask, from, bytes) else {
        return Judged::Stranger;
    };
    let Ok(message) = MessageRef::view(bytes) else {
        return Judged::Stranger;
    };
    if !asks_only(bytes, &header, &message, &ask.question) {
        return Judged::Stranger;
    }
    if header.tc {
        return Judged::Truncated;
    }
    if header.rcode != 0 && header.rcode != 3 {
        return Judged::Failed(header.rcode);
    }
    whole_verdict(message)
}

/// The header of a reply to a standard query with the ask's identifier, from its server. Everything
/// else is a stranger's before the question is read.
#[tactic(auto, unfolding(dns_message::specs::Header::header_of))]
fn reply_header<A: Allocator>(ask: &Ask<A>, from: Peer, bytes: &[u8]) -> Option<Header>
    ensures { MatchOption result (is_reply ask.now from bytes.now ≡ false)
        (λ header. (is_reply ask.now from bytes.now ≡ true) × (header ≡ header_in bytes.now)) }
{
    let header = Header::read(bytes)?;
    let is_reply = bytes.len() <= 65535
        && header.qr
        && header.opcode == 0
        && header.id == ask.id
        && from == ask.peer;
    if is_reply { Some(header) } else { None }
}

/// The message has a single question, equal to `question`.
fn asks_only<A: Allocator>(
    bytes: &[u8],
    header: &Header,
    message: &MessageRef<'_>,
    question: &Question<A>,
) -> bool
    requires header { header.now ≡ header_in bytes.now }
    requires message { message.now ≡ bytes.now }
    ensures { result ≡ asks_this question.now (one_question bytes.now) }
{
    header.counts[0] == 1 && message.question_is(question)
}

/// The verdict on a message that is neither truncated nor a failure.
fn whole_verdict(message: MessageRef<'_>) -> Judged<'_>
    ensures verdict { verdict_of result ≡ judged_whole (message_of message.entry) }
    ensures view { IsViewOf message.entry result }
{
    if message.is_whole() {
        Judged::Whole(message)
    } else {
        Judged::Malformed
    }
}
