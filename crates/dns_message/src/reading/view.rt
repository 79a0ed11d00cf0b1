//! A message, read in place. Only the calls that make values allocate.

ghost use Rattle.std.specs.Prelude.{◌≡◌, ◌↔◌, IsTrue, IsOk, Ok, Err, Some, MatchResult, MatchOption, IfOk};
ghost use Rattle.dns_message.specs.Reading.{Gives, end_read};
ghost use Rattle.dns_name.specs.Labels.{lowered};
ghost use Rattle.dns_message.specs.Header.{FitsBits, header_of};
ghost use Rattle.dns_message.specs.Records.{question_at};
ghost use Rattle.dns_message.specs.Shortcuts.{AreShortcuts};
ghost use Rattle.dns_message.specs.Sizes.{AreSizes};
ghost use Rattle.dns_message.specs.Messages.{IsWhole, HasShapes, first_question, message_at, message_of};
ghost use Rattle.dns_message.specs.Messages.{QuestionIs, IsUncompressed, IsViewed, IsViewedTo};
ghost use Rattle.dns_message.specs.Spans.{spans_of};
ghost use Rattle.dns_message.specs.declared.names.fault.Fault.TheVariants.{Memory};

use crate::names::{Fault, PLACES, SMALL, key_at, number16, skip_same_name};
use crate::reading::header::Header;
use crate::reading::message::{Message, Question};
use crate::reading::question_ref::QuestionRef;
use crate::reading::records::{
    read_question, read_questions, read_records, skip_octets, skip_question, skip_questions,
    skip_records,
};
use crate::reading::spans::{Records, records_in};
use dns_name::NameKey;
use std::alloc::Allocator;
use std::marker::Model;

/// A message whose header and first question can be read.
#[derive(Drop)]
pub struct MessageRef<'a> {
    bytes: &'a [u8],
    /// The place after the first question.
    question_end: usize,
}

impl<'a> Model for MessageRef<'a> {
    ghost use Rattle.std.specs.Prelude.{List, ℕ};
    ghost use Rattle.dns_message.specs.Messages.{IsViewedTo};

    ghost Value = { List ℕ };

    ghost view = { λ m. m.bytes.now };

    ghost invariant = { λ m. IsViewedTo m.bytes.now m.question_end };
}

impl<'a> MessageRef<'a> {
    /// Views octets as a message, at most 65,535. `Err` is the first fault from the front: `Short`
    /// under 12 octets, `NoQuestion` if QDCOUNT is 0, otherwise the fault of the first question.
    /// Does not allocate.
    pub fn view(bytes: &'a [u8]) -> Result<MessageRef<'a>, Fault>
        ensures same { IfOk result (λ message. message ≡ bytes.now) }
        ensures exact { MatchResult result (λ _. IsOk (first_question bytes.now)) (λ fault. first_question bytes.now
            ≡ Err fault) }
    {
        let question_end = first_question_end(bytes)?;
        Ok(MessageRef {
            bytes,
            question_end,
        })
    }

    /// The header.
    #[tactic(auto, unfolding(crate::specs::Header::header_of), using(crate::proofs::reading::MessageLaws::viewed_long))]
    pub fn header(&self) -> Header
        ensures exact { header_of self.now ≡ Some result }
        ensures fits { FitsBits result }
    {
        let Some(header) = Header::read(self.bytes) else {
            unreachable!()
        };
        header
    }

    /// The type of the first question.
    pub fn kind(&self) -> u16
        ensures { IfOk (first_question self.now) (λ question. result ≡ question.kind) }
    {
        number16(self.bytes, self.question_end - 4)
    }

    /// The class of the first question.
    pub fn class(&self) -> u16
        ensures { IfOk (first_question self.now) (λ question. result ≡ question.class) }
    {
        number16(self.bytes, self.question_end - 2)
    }

    /// The key of the first question's name.
    pub fn key(&self) -> NameKey
        ensures { IfOk (first_question self.now) (λ question. result ≡ lowered question.name) }
    {
        match key_at(self.bytes, 12) {
            Ok(key) => key,
            Err(_) => unreachable!(),
        }
    }

    /// Whether the first question has this name, letter case aside, this type and this class.
    pub fn question_is<A: Allocator>(&self, question: &Question<A>) -> bool
        ensures { IsTrue result ↔ QuestionIs (first_question self.now) question.now }
    {
        first_question_is(self.bytes, question)
    }

    /// The first question. `Err` is always `Memory`.
    #[tactic(auto, unfolding(crate::specs::Messages::first_question))]
    pub fn question<A: Allocator>(&self, alloc: A) -> Result<Question<A>, Fault>
        ensures { MatchResult result (λ question. first_question self.now ≡ Ok question) (λ fault. fault ≡ Memory) }
    {
        let (question, _) = read_question(alloc, self.bytes, &mut [], 12)?;
        Ok(question)
    }

    /// The first question, in place, if its name has no pointer (RFC 1035 4.1.4); `None` exactly if
    /// a part of the name is a pointer.
    pub fn question_ref(&self) -> Option<QuestionRef<'a>>
        ensures { MatchOption result (IfOk (first_question self.now)
            (λ question. IsUncompressed self.now 12 question.name → ⊥))
            (λ question. (first_question self.now ≡ Ok question) × IsUncompressed self.now 12 question.name) }
    {
        let name_end = self.question_end - 4;
        QuestionRef::at(self.bytes, 12, name_end, self.kind(), self.class())
    }

    /// Whether header, counted questions and counted records are readable.
    #[tactic(auto, using(crate::proofs::reading::WholeLaws::whole_where_read, crate::proofs::reading::WholeLaws::read_where_whole))]
    pub fn is_whole(&self) -> bool
        ensures { IsTrue result ↔ IsWhole self.now }
    {
        skip_message(self.bytes, self.question_end).is_ok()
    }

    /// The spans of the readable records, in order. All together take about the time of `is_whole`,
    /// even if many pointers lead to one name.
    #[tactic(auto, using(crate::proofs::reading::MessageLaws::viewed_long))]
    pub fn records(&self) -> Records<'a>
        ensures { result ≡ spans_of self.now }
    {
        records_in(self.bytes)
    }

    /// The message spelled by the octets, all counted questions and records. `Err` is `Memory`, or
    /// the first fault from the front.
    #[tactic(auto, using(crate::proofs::reading::ShapeLaws::read_shaped))]
    pub fn read_whole<A: Allocator + Copy>(&self, alloc: A) -> Result<Message<A>, Fault>
        ensures exact { Gives (λ message. message) result (message_of self.now) }
        ensures shaped { IfOk result (λ message. HasShapes message) }
        ensures fits { IfOk result (λ message. FitsBits message.header) }
    {
        read_message(alloc, self.bytes)
    }
}

/// The place after the first question, if header and first question are readable.
#[tactic(auto, unfolding(crate::specs::Messages::first_question), using(crate::proofs::reading::MessageLaws::question_read, crate::proofs::reading::MessageLaws::question_fault))]
fn first_question_end(bytes: &[u8]) -> Result<usize, Fault>
    ensures first { MatchResult result (λ _. IsOk (first_question bytes.now)) (λ fault. first_question bytes.now
        ≡ Err fault) }
    ensures end { IfOk result (λ end. end_read (question_at bytes.now 12) ≡ Ok end) }
{
    if bytes.len() < 12 {
        return Err(Fault::Short);
    }
    if number16(bytes, 4) == 0 {
        return Err(Fault::NoQuestion);
    }
    let end = skip_question(bytes, &mut [], 12)?;
    Ok(end)
}

/// Whether the first question is equal to `question`, letter case aside.
#[tactic(auto, unfolding(crate::specs::Messages::first_question, crate::specs::Records::question_at, crate::specs::Records::octets_end))]
fn first_question_is<A: Allocator>(bytes: &[u8], question: &Question<A>) -> bool
    requires { IsViewed bytes.now }
    ensures { IsTrue result ↔ QuestionIs (first_question bytes.now) question.now }
{
    let Some(after) = skip_same_name(bytes, 12, &question.name) else {
        return false;
    };
    let Ok(end) = skip_octets(bytes, after, 4) else {
        return false;
    };
    number16(bytes, after) == question.kind && number16(bytes, end - 2) == question.class
}

/// The place after the last counted record.
#[tactic(auto, using(crate::proofs::names::SizeLaws::none_kept))]
fn skip_message(bytes: &[u8], question_end: usize) -> Result<usize, Fault>
    requires { IsViewedTo bytes.now question_end }
    ensures { result ≡ end_read (message_at bytes.now) }
{
    if bytes.len() > SMALL {
        return skip_large_message(bytes, question_end);
    }
    skip_sections(bytes, &mut [], question_end)
}

/// `skip_sections` of a message that may have many pointers to one name. Out of line: inlined, its
/// 16 KiB would be on the stack of every reply.
#[tactic(auto, using(crate::proofs::names::SizeLaws::none_known))]
#[inline(never)]
fn skip_large_message(bytes: &[u8], question_end: usize) -> Result<usize, Fault>
    requires { IsViewedTo bytes.now question_end }
    ensures { result ≡ end_read (message_at bytes.now) }
{
    let mut sizes = [0u8; PLACES];
    skip_sections(bytes, &mut sizes, question_end)
}

/// The place after the last counted record, with the sizes of pointers' target names remembered in
/// `sizes`. The first question was read before: reading begins after it.
#[tactic(auto, using(crate::proofs::reading::MessageLaws::message_behind, crate::proofs::reading::MessageLaws::others_behind, crate::proofs::reading::MessageLaws::viewed_long, crate::proofs::reading::MessageLaws::viewed_counts))]
fn skip_sections(bytes: &[u8], sizes: &mut [u8], question_end: usize) -> Result<usize, Fault>
    requires viewed { IsViewedTo bytes.now question_end }
    requires known { AreSizes bytes.now sizes.old }
    ensures { result ≡ end_read (message_at bytes.now) }
{
    let at = skip_questions(bytes, sizes, question_end, number16(bytes, 4) - 1)?;
    let at = skip_records(bytes, sizes, at, number16(bytes, 6))?;
    let at = skip_records(bytes, sizes, at, number16(bytes, 8))?;
    skip_records(bytes, sizes, at, number16(bytes, 10))
}

/// The message spelled by the octets.
#[tactic(auto, using(crate::proofs::names::ShortcutLaws::none_kept))]
fn read_message<A: Allocator + Copy>(alloc: A, bytes: &[u8]) -> Result<Message<A>, Fault>
    ensures { Gives (λ m. m) result (message_of bytes.now) }
{
    if bytes.len() > SMALL {
        return read_large_message(alloc, bytes);
    }
    read_sections(alloc, bytes, &mut [])
}

/// `read_sections` of a message that may have long chains of pointers. Out of line: inlined, its
/// 32 KiB would be on the stack of every reply.
#[tactic(auto, using(crate::proofs::names::ShortcutLaws::none_known))]
#[inline(never)]
fn read_large_message<A: Allocator + Copy>(alloc: A, bytes: &[u8]) -> Result<Message<A>, Fault>
    ensures { Gives (λ m. m) result (message_of bytes.now) }
{
    let mut ends = [0u16; PLACES];
    read_sections(alloc, bytes, &mut ends)
}

/// The message spelled by the octets; the targets of pointers are remembered in `ends`.
#[tactic(auto, unfolding(crate::specs::Messages::message_at))]
fn read_sections<A: Allocator + Copy>(
    alloc: A,
    bytes: &[u8],
    ends: &mut [u16],
) -> Result<Message<A>, Fault>
    requires { AreShortcuts bytes.now ends.old }
    ensures { Gives (λ m. m) result (message_of bytes.now) }
{
    let Some(header) = Header::read(bytes) else {
        return Err(Fault::Short);
    };
    let (questions, at) = read_questions(alloc, bytes, ends, 12, header.counts[0])?;
    let (answers, at) = read_records(alloc, bytes, ends, at, header.counts[1])?;
    let (authority, at) = read_records(alloc, bytes, ends, at, header.counts[2])?;
    let (additional, _) = read_records(alloc, bytes, ends, at, header.counts[3])?;
    Ok(Message {
        header,
        questions,
        answers,
        authority,
        additional,
    })
}
