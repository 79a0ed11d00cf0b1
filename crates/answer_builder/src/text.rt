//! The octets of answers.

ghost use Rattle.std.specs.Prelude.{◌≡◌, ◌≤◌, ◌<◌, ◌∷◌, [], false, if◌then◌else◌, length, Some, None, IfOk, OnOk};
ghost use Rattle.dns_message.specs.Header.{FitsBits};
ghost use Rattle.dns_message.specs.Writing.{written};
ghost use Rattle.answer_builder.specs.Answers.{answer_header};
ghost use Rattle.answer_builder.specs.Building.{cut_down, fitting};
ghost use Rattle.answer_builder.specs.Faults.{Gives};
ghost use Rattle.answer_builder.specs.Transports.{over_tcp, over_udp, sent_over};

use crate::asked::{AskedRef, Transport};
use crate::fault::Fault;
use dns_message::{Header, MessageParts, write_parts};
use std::alloc::{AllocError, Allocator};

/// The most octets of a message over UDP (RFC 1035 4.2.1).
pub const UDP_LIMIT: usize = 512;

/// The most octets of a message over TCP (RFC 1035 4.2.2).
const TCP_LIMIT: usize = 65_535;

/// The header of an answer. Its counts are those of the sections written after it.
pub(crate) fn header_of(asked: &AskedRef<'_>, rcode: u8) -> Header
    ensures { result ≡ answer_header asked.now false rcode (0 ∷ 0 ∷ 0 ∷ 0 ∷ []) }
{
    Header {
        id: asked.id,
        qr: true,
        opcode: asked.opcode,
        aa: false,
        tc: false,
        rd: asked.rd,
        ra: true,
        z: 0,
        rcode,
        counts: [0; 4],
    }
}

/// Writes the sent octets of an answer.
pub(crate) fn put_text<A: Allocator + Copy>(
    alloc: A,
    octets: &mut Vec<u8, A>,
    message: MessageParts<'_, A>,
    transport: Transport,
) -> Result<(), Fault>
    requires bits { FitsBits message.header }
    requires short { length (written (cut_down message)) ≤ 65535 }
    ensures { Gives (λ _. octets.new.items) result (sent_over transport (written message.entry)
        (written (cut_down message.entry))) }
{
    match transport {
        Transport::Udp => Ok(put_udp(alloc, octets, message)?),
        Transport::Tcp => put_tcp(alloc, octets, &message),
    }
}

/// Writes an answer for UDP: above 512 octets the header with TC and the question alone.
fn put_udp<A: Allocator + Copy>(
    alloc: A,
    octets: &mut Vec<u8, A>,
    message: MessageParts<'_, A>,
) -> Result<(), AllocError>
    requires bits { FitsBits message.header }
    requires short { length (written (cut_down message)) ≤ 65535 }
    ensures { OnOk result (octets.new.items ≡ over_udp (written message.entry) (written (cut_down message.entry))) }
{
    if put_whole(alloc, octets, &message, UDP_LIMIT)? {
        return Ok(());
    }
    let MessageParts {
        mut header,
        question,
        answers: _,
        authority: _,
    } = message;
    header.tc = true;
    let cut = MessageParts {
        header,
        question,
        answers: &[],
        authority: &[],
    };
    put_bare(alloc, octets, &cut)
}

/// Writes an answer for TCP: `TooLarge` above 65,535 octets.
fn put_tcp<A: Allocator + Copy>(
    alloc: A,
    octets: &mut Vec<u8, A>,
    message: &MessageParts<'_, A>,
) -> Result<(), Fault>
    requires { FitsBits message.now.header }
    ensures { Gives (λ _. octets.new.items) result (over_tcp (written message.now)) }
{
    if put_whole(alloc, octets, message, TCP_LIMIT)? {
        Ok(())
    } else {
        Err(Fault::TooLarge)
    }
}

/// Writes a message without records: a header and a question have 271 octets at most.
pub(crate) fn put_bare<A: Allocator + Copy>(
    alloc: A,
    octets: &mut Vec<u8, A>,
    message: &MessageParts<'_, A>,
) -> Result<(), AllocError>
    requires bits { FitsBits message.now.header }
    requires short { length (written message.now) ≤ 65535 }
    ensures { OnOk result (octets.new.items ≡ written message.now) }
{
    if put_whole(alloc, octets, message, TCP_LIMIT)? {
        Ok(())
    } else {
        unreachable!()
    }
}

/// Writes the message, if at most `limit` octets long; returns whether it is.
fn put_whole<A: Allocator + Copy>(
    alloc: A,
    octets: &mut Vec<u8, A>,
    message: &MessageParts<'_, A>,
    limit: usize,
) -> Result<bool, AllocError>
    requires limit { limit ≤ 65535 }
    requires bits { FitsBits message.now.header }
    ensures { IfOk result (λ whole. (if whole then Some octets.new.items else None)
        ≡ fitting limit (written message.now)) }
{
    match write_parts(alloc, octets, message, limit) {
        Ok(()) => Ok(true),
        Err(dns_message::Fault::TooLarge) => Ok(false),
        Err(_) => Err(AllocError),
    }
}
