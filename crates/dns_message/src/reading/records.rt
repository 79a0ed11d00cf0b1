//! Questions and records, at a place of a message.

ghost use Rattle.std.specs.Prelude.{◌≡◌, ◌+◌, IsOk, Ok, Err, MatchResult};
ghost use Rattle.dns_message.specs.Numbers.{number16};
ghost use Rattle.dns_message.specs.Reading.{Gives, end_read};
ghost use Rattle.dns_message.specs.Shortcuts.{AreShortcuts};
ghost use Rattle.dns_message.specs.Sizes.{AreSizes};
ghost use Rattle.dns_message.specs.Records.{octets_end, question_at, record_at, counted};

use crate::names::{Bound, Fault, number16, number32, read_name, readable_name_end, skip_name};
use crate::reading::data::{DataPlace, read_data, skip_data};
use crate::reading::message::{Question, Rdata, Record};
use dns_name::PlainList;
use std::alloc::Allocator;

/// The place after `count` octets.
#[tactic(auto, unfolding(crate::specs::Records::octets_end))]
pub(crate) fn skip_octets(bytes: &[u8], offset: usize, count: usize) -> Result<usize, Fault>
    ensures { result ≡ octets_end bytes.now offset count }
{
    Bound::whole(bytes).skip(offset, count)
}

/// The question at a place, and the place after.
#[tactic(auto, unfolding(crate::specs::Records::question_at, crate::specs::Records::octets_end))]
pub(crate) fn read_question<A: Allocator>(
    alloc: A,
    bytes: &[u8],
    ends: &mut [u16],
    offset: usize,
) -> Result<(Question<A>, usize), Fault>
    requires { AreShortcuts bytes.now ends.old }
    ensures exact { Gives (λ x. x) result (question_at bytes.now offset) }
    ensures known { AreShortcuts bytes.now ends.new }
{
    let (name, after) = read_name(alloc, bytes, ends, offset)?;
    let end = skip_octets(bytes, after, 4)?;
    let kind = number16(bytes, after);
    let class = number16(bytes, after + 2);
    Ok((Question { name, kind, class }, end))
}

/// The place after the question at a place.
#[tactic(auto, using(crate::proofs::reading::RecordLaws::question_behind))]
pub(crate) fn skip_question(bytes: &[u8], sizes: &mut [u8], offset: usize) -> Result<usize, Fault>
    requires { AreSizes bytes.now sizes.old }
    ensures exact { result ≡ end_read (question_at bytes.now offset) }
    ensures known { AreSizes bytes.now sizes.new }
{
    let after = skip_name(bytes, sizes, Bound::whole(bytes), offset)?;
    skip_octets(bytes, after, 4)
}

/// The record at a place, and the place after.
#[tactic(auto, unfolding(crate::specs::Records::record_at, crate::specs::Records::octets_end))]
pub(crate) fn read_record<A: Allocator + Copy>(
    alloc: A,
    bytes: &[u8],
    ends: &mut [u16],
    offset: usize,
) -> Result<(Record<A>, usize), Fault>
    requires { AreShortcuts bytes.now ends.old }
    ensures exact { Gives (λ x. x) result (record_at bytes.now offset) }
    ensures known { AreShortcuts bytes.now ends.new }
{
    let (owner, after) = read_name(alloc, bytes, ends, offset)?;
    let place = data_place(bytes, after)?;
    let class = number16(bytes, after + 2);
    let ttl = number32(bytes, after + 4);
    let (octets, end) = read_data(alloc, bytes, ends, place)?;
    let rdata = Rdata::holding(octets);
    Ok((
        Record {
            owner,
            kind: place.kind,
            class,
            ttl,
            rdata,
        },
        end,
    ))
}

/// The place after the record at a place.
#[tactic(auto, unfolding(crate::specs::Records::octets_end), using(crate::proofs::reading::RecordLaws::record_behind))]
pub(crate) fn skip_record(bytes: &[u8], sizes: &mut [u8], offset: usize) -> Result<usize, Fault>
    requires { AreSizes bytes.now sizes.old }
    ensures exact { result ≡ end_read (record_at bytes.now offset) }
    ensures known { AreSizes bytes.now sizes.new }
{
    let after = skip_name(bytes, sizes, Bound::whole(bytes), offset)?;
    let place = data_place(bytes, after)?;
    skip_data(bytes, sizes, place)
}

/// The place of the data of the record whose owner ends before this place, with its type.
#[tactic(auto, unfolding(crate::specs::Records::octets_end))]
fn data_place(bytes: &[u8], after: usize) -> Result<DataPlace, Fault>
    ensures { MatchResult result (λ place. (octets_end bytes.now after 10 ≡ Ok place.offset)
        × (place.kind ≡ number16 bytes.now after) × (place.len ≡ number16 bytes.now (after + 8)))
        (λ fault. octets_end bytes.now after 10 ≡ Err fault) }
{
    let offset = skip_octets(bytes, after, 10)?;
    Ok(DataPlace {
        kind: number16(bytes, after),
        offset,
        len: number16(bytes, after + 8) as usize,
    })
}

/// The place after the readable record at a place. No pointer is followed.
#[tactic(auto, using(crate::proofs::reading::EndLaws::owner_readable, crate::proofs::reading::EndLaws::record_ends))]
pub(crate) fn readable_record_end(bytes: &[u8], offset: usize) -> usize
    requires { IsOk (record_at bytes.now offset) }
    ensures { end_read (record_at bytes.now offset) ≡ Ok result }
{
    let after = readable_name_end(bytes, offset);
    after + 10 + number16(bytes, after + 8) as usize
}

/// Reads `count` questions at `offset`; returns them and the offset after them.
#[tactic(auto, using(crate::proofs::reading::Counting::read_more, crate::proofs::reading::Counting::after_none))]
pub(crate) fn read_questions<A: Allocator + Copy>(
    alloc: A,
    bytes: &[u8],
    ends: &mut [u16],
    offset: usize,
    count: u16,
) -> Result<(PlainList<Question<A>, A>, usize), Fault>
    requires { AreShortcuts bytes.now ends.old }
    ensures exact { Gives (λ x. x) result (counted (question_at bytes.now) count offset) }
    ensures known { AreShortcuts bytes.now ends.new }
{
    let mut questions = PlainList::new(alloc);
    let mut at = offset;
    for _ in 0..count {
        let (question, after) = read_question(alloc, bytes, ends, at)?;
        questions.push(question)?;
        at = after;
    }
    Ok((questions, at))
}

/// Reads `count` records at `offset`; returns them and the offset after them.
#[tactic(auto, using(crate::proofs::reading::Counting::read_more, crate::proofs::reading::Counting::after_none))]
pub(crate) fn read_records<A: Allocator + Copy>(
    alloc: A,
    bytes: &[u8],
    ends: &mut [u16],
    offset: usize,
    count: u16,
) -> Result<(PlainList<Record<A>, A>, usize), Fault>
    requires { AreShortcuts bytes.now ends.old }
    ensures exact { Gives (λ x. x) result (counted (record_at bytes.now) count offset) }
    ensures known { AreShortcuts bytes.now ends.new }
{
    let mut records = PlainList::new(alloc);
    let mut at = offset;
    for _ in 0..count {
        let (record, after) = read_record(alloc, bytes, ends, at)?;
        records.push(record)?;
        at = after;
    }
    Ok((records, at))
}

/// The place after `count` questions.
#[tactic(auto, using(crate::proofs::reading::Counting::skip_more, crate::proofs::reading::Counting::skip_fault, crate::proofs::reading::Counting::skip_done))]
pub(crate) fn skip_questions(
    bytes: &[u8],
    sizes: &mut [u8],
    offset: usize,
    count: u16,
) -> Result<usize, Fault>
    requires { AreSizes bytes.now sizes.old }
    ensures exact { result ≡ end_read (counted (question_at bytes.now) count offset) }
    ensures known { AreSizes bytes.now sizes.new }
{
    let mut at = offset;
    for _ in 0..count {
        at = skip_question(bytes, sizes, at)?;
    }
    Ok(at)
}

/// The place after `count` records.
#[tactic(auto, using(crate::proofs::reading::Counting::skip_more, crate::proofs::reading::Counting::skip_fault, crate::proofs::reading::Counting::skip_done))]
pub(crate) fn skip_records(
    bytes: &[u8],
    sizes: &mut [u8],
    offset: usize,
    count: u16,
) -> Result<usize, Fault>
    requires { AreSizes bytes.now sizes.old }
    ensures exact { result ≡ end_read (counted (record_at bytes.now) count offset) }
    ensures known { AreSizes bytes.now sizes.new }
{
    let mut at = offset;
    for _ in 0..count {
        at = skip_record(bytes, sizes, at)?;
    }
    Ok(at)
}
