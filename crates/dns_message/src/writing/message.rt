//! Writing messages as octets: RFC 1035 4.1.

ghost use Rattle.std.specs.Prelude.{◌≡◌, ◌↔◌, ◌≤◌, ◌<◌, length, Ok, OnOk, IfOk, IfErr, IsTrue, MatchOption};
ghost use Rattle.std.specs.Prelude.{MatchResult};
ghost use Rattle.dns_message.specs.Reading.{Gives, Fails};
ghost use Rattle.dns_message.specs.declared.names.fault.Fault.TheVariants.{Memory};
ghost use Rattle.dns_message.specs.Header.{FitsBits};
ghost use Rattle.dns_message.specs.Messages.{Spells, HasShapes};
ghost use Rattle.dns_message.specs.Writing.{counted_header, list_counts, CanBeCounted};
ghost use Rattle.dns_message.specs.Writing.{message_text, written_within};
ghost use Rattle.dns_message.specs.Borrowed.{records_in};
ghost use Rattle.dns_message.specs.Written.{IsMessage, IsCounted};
ghost use Rattle.dns_message.specs.Writer.{Writes, Puts, HoldsText};

use crate::names::Fault;
use crate::reading::{Header, Message};
use crate::writing::borrowed::{MessageParts, RowsRef};
use crate::writing::records::{put_only_question, put_questions, put_records, put_sets};
use crate::writing::writer::Writer;
use dns_name::Octets;
use std::alloc::{AllocError, Allocator};
use std::mem;

/// The greatest count of a header (RFC 1035 4.1.1).
const LAST_COUNT: usize = 65535;

/// The octets of a message, with the counts of its lists in the header; the counts in
/// `header.counts` are not looked at.
///
/// In the names of questions and owners, and in the data of types whose names may be pointers, the
/// longest end of a name that began earlier in these octets is a pointer to its first place (RFC
/// 1035 4.1.4). `TooLarge` if the octets are more than `limit`, and at once for a list longer than
/// a header counts; `Memory` if memory ran out. The octets spell the message again, if its header
/// counts the lists and its data has its shapes.
pub fn write<A: Allocator + Copy>(
    alloc: A,
    message: &Message<A>,
    limit: usize,
) -> Result<Octets<A>, Fault>
    requires limit { limit ≤ 65535 }
    requires bits { FitsBits message.now.header }
    ensures given { Gives (λ octets. octets) result (written_within limit message.now) }
    ensures counted { IfErr result (λ fault. fault ≡ Memory → CanBeCounted message.now) }
    ensures spelled { IfOk result (λ octets. IsCounted message.now → HasShapes message.now
        → Spells octets message.now) }
{
    if !can_be_counted(message) {
        return Err(Fault::TooLarge);
    }
    let mut writer = Writer::new(alloc, Vec::new(alloc));
    put_message(&mut writer, message, limit)?;
    let Writer {
        octets,
        pointers: _,
    } = writer;
    Ok(Octets::from_vec(octets))
}

/// Whether a header has room for the counts of the lists.
fn can_be_counted<A: Allocator>(message: &Message<A>) -> bool
    ensures { IsTrue result ↔ CanBeCounted message.now }
{
    let records = message
        .answers
        .as_slice()
        .len()
        .max(message.authority.as_slice().len())
        .max(message.additional.as_slice().len());
    message.questions.as_slice().len().max(records) <= LAST_COUNT
}

/// Writes a message, up to the limit.
fn put_message<'a, A: Allocator + Copy>(
    writer: &mut Writer<'a, A>,
    message: &'a Message<A>,
    limit: usize,
) -> Result<(), Fault>
    requires holds { HoldsText writer.old }
    requires limit { limit ≤ 65535 }
    requires bits { FitsBits message.now.header }
    requires counts { CanBeCounted message.now }
    ensures { Puts limit result writer.old writer.new (message_text message.now) (IsMessage message.now) }
{
    let questions = message.questions.as_slice();
    let answers = message.answers.as_slice();
    let authority = message.authority.as_slice();
    let additional = message.additional.as_slice();
    let counts = [
        questions.len() as u16,
        answers.len() as u16,
        authority.len() as u16,
        additional.len() as u16,
    ];
    put_header(writer, &message.header, counts)?;
    writer.check(limit)?;
    put_questions(writer, questions, limit)?;
    put_records(writer, answers, limit)?;
    put_records(writer, authority, limit)?;
    put_records(writer, additional, limit)?;
    Ok(())
}

/// The octets of `write` for the message with these parts, in place of the vector's content.
///
/// A vector with room for them is not enlarged; otherwise, only more than 16 names in the octets
/// allocate. `TooLarge` and `Memory` as in `write`; then the vector has some octets or none.
pub fn write_parts<A: Allocator + Copy>(
    alloc: A,
    octets: &mut Vec<u8, A>,
    message: &MessageParts<A>,
    limit: usize,
) -> Result<(), Fault>
    requires limit { limit ≤ 65535 }
    requires bits { FitsBits message.now.header }
    ensures given { MatchResult result (λ _. written_within limit message.now ≡ Ok octets.new.items)
        (λ fault. Fails fault (written_within limit message.now)) }
    ensures counted { IfErr result (λ fault. fault ≡ Memory → CanBeCounted message.now) }
    ensures spelled { OnOk result (IsCounted message.now → HasShapes message.now
        → Spells octets.new.items message.now) }
{
    let Some(counts) = counts_of(message) else {
        return Err(Fault::TooLarge);
    };
    let mut room = mem::replace(octets, Vec::new(alloc));
    room.clear();
    let mut writer = Writer::new(alloc, room);
    let done = put_parts(&mut writer, message, counts, limit);
    let Writer {
        octets: text,
        pointers: _,
    } = writer;
    *octets = text;
    done
}

/// The counts of the lists; `None` if too large for a header.
fn counts_of<A: Allocator>(message: &MessageParts<A>) -> Option<[u16; 4]>
    ensures { MatchOption result (CanBeCounted message.now → ⊥) (λ counts. CanBeCounted message.now
        × (counts ≡ list_counts message.now)) }
{
    let questions = message.question.is_some() as u16;
    let answers = count_of(message.answers)?;
    let authority = count_of(message.authority)?;
    Some([questions, answers, authority, 0])
}

/// The number of records of the sets; `None` if too large for a header.
fn count_of<A: Allocator>(sets: &[RowsRef<A>]) -> Option<u16>
    ensures { MatchOption result (65535 < length (records_in sets.now)) (λ count. count
        ≡ length (records_in sets.now)) }
{
    let mut count = 0;
    for set in sets {
        let more = set.data.count();
        if more > LAST_COUNT - count {
            return None;
        }
        count += more;
    }
    Some(count as u16)
}

/// Writes a message of borrowed parts with these counts of its lists, up to the limit.
fn put_parts<'a, A: Allocator + Copy>(
    writer: &mut Writer<'a, A>,
    message: &'a MessageParts<'a, A>,
    counts: [u16; 4],
    limit: usize,
) -> Result<(), Fault>
    requires holds { HoldsText writer.old }
    requires limit { limit ≤ 65535 }
    requires bits { FitsBits message.now.header }
    requires counts { counts ≡ list_counts message.now }
    ensures { Puts limit result writer.old writer.new (message_text message.now) (IsMessage message.now) }
{
    put_header(writer, &message.header, counts)?;
    writer.check(limit)?;
    put_only_question(writer, &message.question, limit)?;
    put_sets(writer, message.answers, limit)?;
    put_sets(writer, message.authority, limit)?;
    Ok(())
}

/// Writes the header with these counts: questions, answers, authority, additional.
fn put_header<'a, A: Allocator + Copy>(
    writer: &mut Writer<'a, A>,
    header: &Header,
    counts: [u16; 4],
) -> Result<(), AllocError>
    requires { FitsBits header.now }
    ensures { OnOk result (Writes writer.old writer.new (counted_header header.now counts) × (header.now.id < 65536)) }
{
    writer.put(&header.octets(counts))?;
    Ok(())
}
