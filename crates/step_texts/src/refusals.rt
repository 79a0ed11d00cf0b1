//! Replies without an answer, with the reason.

ghost use Rattle.std.specs.Prelude.{◌≡◌, ◌<◌, IfOk, None};
ghost use Rattle.step_values.specs.Values.{action_of};
ghost use Rattle.step_values.specs.Requests.{rcode_of_why};
ghost use Rattle.answer_builder.specs.Values.{asked_in};
ghost use Rattle.step_table.specs.Steps.{failed, gives_up};

use answer_builder::{AskedRef, put_failure};
use dns_message::{Header, codes};
use plain_values::Octets;
use std::alloc::{AllocError, Allocator};
use step_table::waiting::Request;
use step_values::{Action, Client, Why};

/// A header and a question have 271 octets at most.
pub(crate) const BARE_ROOM: usize = 271;

/// The reply to a failed question, with the question in the client's spelling.
pub fn failure<A: Allocator + Copy>(
    alloc: A,
    request: &Request<'_>,
    why: Why,
) -> Result<Action<A>, AllocError>
    ensures { IfOk result (λ action. action_of action ≡ gives_up why request.now) }
{
    failed(alloc, request.client, request.asked(), why)
}

/// The reply to a message without an accepted question, without a question.
pub fn refusal<A: Allocator + Copy>(
    alloc: A,
    client: Client,
    header: &Header,
    why: Why,
) -> Result<Action<A>, AllocError>
    requires { header.now.opcode < 16 }
    ensures { IfOk result (λ action. action_of action ≡ failed client (asked_in header.now None) why) }
{
    let asked = AskedRef {
        id: header.id,
        opcode: header.opcode,
        rd: header.rd,
        question: None,
    };
    failed(alloc, client, asked, why)
}

/// The reply to a client whose question fails, with the reason.
fn failed<A: Allocator + Copy>(
    alloc: A,
    client: Client,
    asked: AskedRef<'_>,
    why: Why,
) -> Result<Action<A>, AllocError>
    requires { asked.opcode < 16 }
    ensures { IfOk result (λ action. action_of action ≡ failed client asked.entry why) }
{
    let mut octets = Vec::with_capacity(alloc, BARE_ROOM)?;
    put_failure(alloc, &mut octets, asked, rcode_of(why))?;
    Ok(Action::Reply {
        client,
        bytes: Octets::from_vec(octets),
        why,
    })
}

/// The response code of a reply (RFC 1035 4.1.1).
fn rcode_of(why: Why) -> u8
    ensures code { result ≡ rcode_of_why why }
    ensures small { result < 16 }
{
    match why {
        Why::Answered | Why::Stale => codes::NOERROR,
        Why::BadFormat => codes::FORMERR,
        Why::BadOpcode | Why::NotServed => codes::NOTIMP,
        Why::LocalDenied => codes::NXDOMAIN,
        Why::NoRoute => codes::REFUSED,
        Why::QuestionsFull
        | Why::InquiriesFull
        | Why::NoPort
        | Why::Exhausted
        | Why::Deadline
        | Why::ChainLong
        | Why::TooLarge => codes::SERVFAIL,
    }
}
