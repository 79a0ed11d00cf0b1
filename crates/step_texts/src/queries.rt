//! Queries to servers.

ghost use Rattle.std.specs.Prelude.{◌≡◌, IfOk};
ghost use Rattle.dns_message.specs.Header.{FitsBits};
ghost use Rattle.dns_message.specs.Values.{Question};
ghost use Rattle.dns_message.specs.Writing.{written};
ghost use Rattle.step_values.specs.Values.{action_of};
ghost use Rattle.step_values.specs.Outstanding.Draws.{ask_message};
ghost use Rattle.step_table.specs.Steps.{asks};

use crate::refusals::BARE_ROOM;
use dns_message::{Fault, Header, MessageParts, QuestionRef, write_parts};
use plain_values::Octets;
use std::alloc::{AllocError, Allocator};
use step_values::{Action, Ask, Path};

/// The action of sending an ask.
pub fn ask<A: Allocator + Copy>(alloc: A, ask: &Ask<A>) -> Result<Action<A>, AllocError>
    ensures { IfOk result (λ action. action_of action ≡ asks ask.now) }
{
    let bytes = query_text(alloc, ask)?;
    let server = ask.peer;
    match ask.path {
        Path::Udp(port) => Ok(Action::AskUdp {
            port,
            server,
            bytes,
        }),
        Path::Tcp(conn) => Ok(Action::AskTcp {
            conn,
            server,
            bytes,
        }),
    }
}

/// The text of an ask.
fn query_text<A: Allocator + Copy>(alloc: A, ask: &Ask<A>) -> Result<Octets<A>, AllocError>
    ensures { IfOk result (λ text. text ≡ written (ask_message ask.now.id ask.now.question)) }
{
    let question = QuestionRef::of(&ask.question);
    let message = MessageParts {
        header: query_header(ask.id),
        question: Some(question),
        answers: &[],
        authority: &[],
    };
    let mut octets = Vec::with_capacity(alloc, BARE_ROOM)?;
    match write_parts(alloc, &mut octets, &message, BARE_ROOM) {
        Ok(()) => Ok(Octets::from_vec(octets)),
        Err(Fault::TooLarge) => unreachable!(),
        Err(_) => Err(AllocError),
    }
}

/// The header of a query: RD alone (RFC 1035 4.1.1).
fn query_header(id: u16) -> Header
    ensures header { (q : Question) → result ≡ (ask_message id q).header }
    ensures bits { FitsBits result }
{
    Header {
        id,
        qr: false,
        opcode: 0,
        aa: false,
        tc: false,
        rd: true,
        ra: false,
        z: 0,
        rcode: 0,
        counts: [1, 0, 0, 0],
    }
}
