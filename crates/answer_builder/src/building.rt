//! The octets of the answer from a chain of pieces, and of the answer to a question that failed.

ghost use Rattle.std.specs.Prelude.{◌≡◌, ◌<◌, ◌≤◌, length, IfOk, OnOk};
ghost use Rattle.std.specs.List.{AllByRecursion};
ghost use Rattle.dns_message.specs.Writing.{written};
ghost use Rattle.answer_builder.specs.Answers.{error_response, IsEarlier};
ghost use Rattle.answer_builder.specs.Faults.{Gives};
ghost use Rattle.answer_builder.specs.Transports.{answer_of, local_answer_of, stale_answer_of, text_of};

use crate::asked::{Asked, AskedRef, Transport};
use crate::fault::Fault;
use crate::piece_with_ttl::with_stale_ttls;
use crate::sections::Sections;
use crate::text::{UDP_LIMIT, header_of, put_bare};
use dns_message::{MessageParts, Octets};
use record_cache::Held;
use std::alloc::{AllocError, Allocator};

/// The octets of the answer to a question whose opcode has 4 bits, from the answering pieces:
/// aliases in order, then a set or a denial, none accepted after the moment, in milliseconds.
///
/// Identifier, opcode, RD and question are the client's, QR and RA are set, AA and Z clear. The
/// answer section has the records of all sets, in order, the authority section the SOA of a denial
/// at the end, if any, each with the whole seconds left of its piece; the response code is 3 if the
/// end is a name error, otherwise 0 (RFC 2308 2 and 3). Over UDP, an answer longer than 512 octets
/// becomes this header with TC and the question alone (RFC 1035 4.2.1). Over TCP, `TooLarge` for
/// more than 65,535 octets (RFC 1035 4.2.2). `Memory` if memory ran out.
pub fn build<A: Allocator + Copy>(
    alloc: A,
    asked: &Asked<A>,
    chain: &[Held<A>],
    moment: u64,
    transport: Transport,
) -> Result<Octets<A>, Fault>
    requires opcode { asked.now.opcode < 16 }
    requires earlier { AllByRecursion (IsEarlier moment) chain.now }
    ensures { Gives (λ text. text) result (answer_of asked.now chain.now moment transport) }
{
    build_stale(alloc, asked, chain, chain.len(), moment, transport)
}

/// The octets of the answer of `build`, but with expired pieces: from index `stale_from` on, which
/// is at most their number, each expired piece has 30 seconds left (RFC 8767 4); all further pieces
/// have their seconds left, 0 if expired. Faults are the faults of `build`.
pub fn build_stale<A: Allocator + Copy>(
    alloc: A,
    asked: &Asked<A>,
    chain: &[Held<A>],
    stale_from: usize,
    moment: u64,
    transport: Transport,
) -> Result<Octets<A>, Fault>
    requires opcode { asked.now.opcode < 16 }
    requires earlier { AllByRecursion (IsEarlier moment) chain.now }
    requires within { stale_from ≤ length chain.now }
    ensures { Gives (λ text. text) result (stale_answer_of asked.now chain.now stale_from moment transport) }
{
    let pieces = with_stale_ttls(alloc, chain, stale_from, moment)?;
    built(alloc, asked, &Sections::stale(alloc, &pieces)?, transport)
}

/// The octets of the answer to a question whose opcode has 4 bits, from its aliases to a name whose
/// route denies, none to 8, none accepted after the moment, in milliseconds.
///
/// The header is the header of `build` with response code 3, a name error. The answer section has
/// the aliases in order, each with its whole seconds left; the authority section is empty (RFC 2308
/// 2.1). Over UDP, an answer longer than 512 octets becomes this header with TC and the question
/// alone (RFC 1035 4.2.1). Over TCP, `TooLarge` for more than 65,535 octets (RFC 1035 4.2.2).
/// `Memory` if memory ran out.
pub fn build_local<A: Allocator + Copy>(
    alloc: A,
    asked: &Asked<A>,
    aliases: &[Held<A>],
    moment: u64,
    transport: Transport,
) -> Result<Octets<A>, Fault>
    requires opcode { asked.now.opcode < 16 }
    requires earlier { AllByRecursion (IsEarlier moment) aliases.now }
    ensures { Gives (λ text. text) result (local_answer_of asked.now aliases.now moment transport) }
{
    let pieces = with_stale_ttls(alloc, aliases, aliases.len(), moment)?;
    built(alloc, asked, &Sections::denied(alloc, &pieces)?, transport)
}

/// The octets of the answer that has these sections.
fn built<A: Allocator + Copy>(
    alloc: A,
    asked: &Asked<A>,
    sections: &Sections<'_, A>,
    transport: Transport,
) -> Result<Octets<A>, Fault>
    requires opcode { asked.now.opcode < 16 }
    ensures { Gives (λ text. text) result (text_of asked.now sections.now transport) }
{
    let mut octets = Vec::with_capacity(alloc, UDP_LIMIT)?;
    sections.put(alloc, &mut octets, asked.borrowed(), transport)?;
    Ok(Octets::from_vec(octets))
}

/// The octets of the answer to a failed question, with this response code; opcode and response code
/// have 4 bits. Identifier, opcode, RD and the question, if any, are the client's, QR and RA are
/// set, all further bits are clear and all sections are empty (RFC 1035 4.1.1).
pub fn failure<A: Allocator + Copy>(
    alloc: A,
    asked: &Asked<A>,
    rcode: u8,
) -> Result<Octets<A>, AllocError>
    requires opcode { asked.now.opcode < 16 }
    requires rcode { rcode < 16 }
    ensures { IfOk result (λ text. text ≡ written (error_response asked.now rcode)) }
{
    let mut octets = Vec::with_capacity(alloc, UDP_LIMIT)?;
    put_failure(alloc, &mut octets, asked.borrowed(), rcode)?;
    Ok(Octets::from_vec(octets))
}

/// Writes the octets of `failure` over `octets`. A vector with room for 271 is not enlarged. Out of
/// memory, the octets may be anything, and keep their room.
pub fn put_failure<A: Allocator + Copy>(
    alloc: A,
    octets: &mut Vec<u8, A>,
    asked: AskedRef<'_>,
    rcode: u8,
) -> Result<(), AllocError>
    requires opcode { asked.opcode < 16 }
    requires rcode { rcode < 16 }
    ensures { OnOk result (octets.new.items ≡ written (error_response asked.entry rcode)) }
{
    let header = header_of(&asked, rcode);
    let message = MessageParts {
        header,
        question: asked.question,
        answers: &[],
        authority: &[],
    };
    put_bare(alloc, octets, &message)
}
