//! The text of an answer, and the reply with it.

ghost use Rattle.std.specs.Prelude.{◌≡◌, IfOk};
ghost use Rattle.answer_builder.specs.Transports.{text_of};
ghost use Rattle.step_values.specs.Values.{action_of};
ghost use Rattle.step_table.specs.Steps.{sends, transport_of};
ghost use Rattle.step_texts.specs.Spelling.{ok_text, sends_text};

use crate::refusals::failure;
use answer_builder::{Fault, Sections, Transport, UDP_LIMIT};
use plain_values::Octets;
use std::alloc::{AllocError, Allocator};
use step_table::waiting::Request;
use step_values::{Action, Client, Why};

/// The reply with the answer that has these sections for this reason, or that it is too large.
pub(crate) fn reply<A: Allocator + Copy>(
    alloc: A,
    request: &Request<'_>,
    sections: &Sections<'_, A>,
    why: Why,
) -> Result<Action<A>, AllocError>
    ensures { IfOk result (λ action. action_of action ≡ sends why request.now
        (text_of request.now.asked sections.now (transport_of request.now.client))) }
{
    let text = text_of(alloc, request, sections, transport_of(request.client))?;
    reply_with(alloc, request, text, why)
}

/// The text of the answer that has these sections; `None` if it is too large.
pub(crate) fn text_of<A: Allocator + Copy>(
    alloc: A,
    request: &Request<'_>,
    sections: &Sections<'_, A>,
    transport: Transport,
) -> Result<Option<Octets<A>>, AllocError>
    ensures { IfOk result (λ text. text ≡ ok_text (text_of request.now.asked sections.now transport)) }
{
    let mut octets = Vec::with_capacity(alloc, UDP_LIMIT)?;
    match sections.put(alloc, &mut octets, request.asked(), transport) {
        Ok(()) => Ok(Some(Octets::from_vec(octets))),
        Err(Fault::TooLarge) => Ok(None),
        Err(Fault::Memory) => Err(AllocError),
    }
}

/// The reply with this text for this reason; without a text, that the answer is too large.
pub(crate) fn reply_with<A: Allocator + Copy>(
    alloc: A,
    request: &Request<'_>,
    text: Option<Octets<A>>,
    why: Why,
) -> Result<Action<A>, AllocError>
    ensures { IfOk result (λ action. action_of action ≡ sends_text why request.now text) }
{
    match text {
        Some(bytes) => Ok(Action::Reply {
            client: request.client,
            bytes,
            why,
        }),
        None => failure(alloc, request, Why::TooLarge),
    }
}

/// The transport of the answer to a client.
pub(crate) fn transport_of(client: Client) -> Transport
    ensures { result ≡ transport_of client }
{
    match client {
        Client::Udp(_) => Transport::Udp,
        Client::Tcp(_) => Transport::Tcp,
    }
}
