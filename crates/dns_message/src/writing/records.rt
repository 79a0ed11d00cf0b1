//! Questions and records, written in order (RFC 1035 4.1.2 and 4.1.3).

ghost use Rattle.std.specs.Prelude.{◌≡◌, ◌++◌, ◌≤◌, ◌<◌, ℕ, List, length, OnOk};
ghost use Rattle.std.specs.Option.{IfSome};
ghost use Rattle.std.specs.List.{AllByRecursion};
ghost use Rattle.dns_name.specs.Labels.{labels_of, IsLaidOut};
ghost use Rattle.dns_message.specs.Data.{IsShaped};
ghost use Rattle.dns_message.specs.Writing.{octets16, octets32, each, question_text, head_text, record_text};
ghost use Rattle.dns_message.specs.Borrowed.{record_of, records_of, records_in, questions_of};
ghost use Rattle.dns_message.specs.Written.{IsQuestion, IsRecord};
ghost use Rattle.dns_message.specs.Writer.{Writes, Puts, HoldsText, IsKnown};

use crate::names::Fault;
use crate::reading::{Question, QuestionRef, Rdata, Record};
use crate::writing::borrowed::{DataRef, RowsRef};
use crate::writing::data::{put_shaped_with_length, put_with_length};
use crate::writing::writer::Writer;
use byteorder::{BigEndian, ByteOrder};
use std::alloc::{AllocError, Allocator};

/// Writes a question, up to the limit.
pub(crate) fn put_question<'a, A: Allocator + Copy>(
    writer: &mut Writer<'a, A>,
    question: &QuestionRef<'a>,
    limit: usize,
) -> Result<(), Fault>
    ensures { Puts limit result writer.old writer.new (question_text question.now) (IsQuestion question.now) }
{
    writer.put_name(question.name())?;
    writer.put(&kind_and_class(question.kind(), question.class()))?;
    writer.check(limit)?;
    Ok(())
}

/// Writes the questions, as far as the limit lets them.
pub(crate) fn put_questions<'a, A: Allocator + Copy>(
    writer: &mut Writer<'a, A>,
    questions: &'a [Question<A>],
    limit: usize,
) -> Result<(), Fault>
    requires { length writer.old.octets.items ≤ limit }
    ensures { Puts limit result writer.old writer.new (each question_text questions.now)
        (AllByRecursion IsQuestion questions.now) }
{
    for question in questions {
        put_question(writer, &QuestionRef::of(question), limit)?;
    }
    Ok(())
}

/// Writes the question, if any, up to the limit.
pub(crate) fn put_only_question<'a, A: Allocator + Copy>(
    writer: &mut Writer<'a, A>,
    question: &Option<QuestionRef<'a>>,
    limit: usize,
) -> Result<(), Fault>
    requires { length writer.old.octets.items ≤ limit }
    ensures { Puts limit result writer.old writer.new (each question_text (questions_of question.now))
        (AllByRecursion IsQuestion (questions_of question.now)) }
{
    match question {
        None => Ok(()),
        Some(question) => {
            put_question(writer, question, limit)?;
            Ok(())
        }
    }
}

/// Writes the records, as far as the limit lets them.
pub(crate) fn put_records<'a, A: Allocator + Copy>(
    writer: &mut Writer<'a, A>,
    records: &'a [Record<A>],
    limit: usize,
) -> Result<(), Fault>
    requires holds { HoldsText writer.old }
    requires limit { limit ≤ 65535 }
    requires within { length writer.old.octets.items ≤ limit }
    ensures { Puts limit result writer.old writer.new (each record_text records.now)
        (AllByRecursion IsRecord records.now) }
{
    for entry in records {
        put_record(writer, entry, limit)?;
    }
    Ok(())
}

/// Writes a record, up to the limit.
fn put_record<'a, A: Allocator + Copy>(
    writer: &mut Writer<'a, A>,
    entry: &'a Record<A>,
    limit: usize,
) -> Result<(), Fault>
    requires holds { HoldsText writer.old }
    requires limit { limit ≤ 65535 }
    ensures { Puts limit result writer.old writer.new (record_text entry.now) (IsRecord entry.now) }
{
    let head = Head {
        owner: entry.owner.octets(),
        kind: entry.kind,
        class: entry.class,
        ttl: entry.ttl,
    };
    put_any_row(writer, &head, None, entry.rdata.octets(), limit)?;
    Ok(())
}

/// The common part of the records of a set.
#[derive(Drop)]
struct Head<'a> {
    /// The owner's labels, each after its length, without the zero octet.
    owner: &'a [u8],
    kind: u16,
    class: u16,
    ttl: u32,
}

/// Writes a record with this data, up to the limit. `known` is the pointer to its owner, if any.
/// Data without the shape of its type is written unchanged.
fn put_any_row<'a, A: Allocator + Copy>(
    writer: &mut Writer<'a, A>,
    head: &Head<'a>,
    known: Option<u16>,
    rdata: &'a [u8],
    limit: usize,
) -> Result<(), Fault>
    requires laid { IsLaidOut head.now.owner.now }
    requires known { IfSome known (λ pointer. IsKnown writer.old head.now.owner.now pointer) }
    requires holds { HoldsText writer.old }
    requires limit { limit ≤ 65535 }
    ensures { let entry = record_of (labels_of head.now.owner.now) head.now.kind head.now.class head.now.ttl
        rdata.now in Puts limit result writer.old writer.new (record_text entry) (IsRecord entry) }
{
    put_head(writer, head, known)?;
    put_with_length(writer, head.kind, rdata, limit)?;
    Ok(())
}

/// Writes the records of the sets, as far as the limit lets them.
pub(crate) fn put_sets<'a, A: Allocator + Copy>(
    writer: &mut Writer<'a, A>,
    sets: &'a [RowsRef<'a, A>],
    limit: usize,
) -> Result<(), Fault>
    requires holds { HoldsText writer.old }
    requires limit { limit ≤ 65535 }
    requires within { length writer.old.octets.items ≤ limit }
    ensures { Puts limit result writer.old writer.new (each record_text (records_in sets.now))
        (AllByRecursion IsRecord (records_in sets.now)) }
{
    for set in sets {
        put_set(writer, set, limit)?;
    }
    Ok(())
}

/// Writes the records of a set, as far as the limit lets them.
fn put_set<'a, A: Allocator + Copy>(
    writer: &mut Writer<'a, A>,
    set: &'a RowsRef<'a, A>,
    limit: usize,
) -> Result<(), Fault>
    requires holds { HoldsText writer.old }
    requires limit { limit ≤ 65535 }
    requires within { length writer.old.octets.items ≤ limit }
    ensures { Puts limit result writer.old writer.new (each record_text set.now) (AllByRecursion IsRecord set.now) }
{
    let head = Head {
        owner: set.owner.octets(),
        kind: set.kind,
        class: set.class,
        ttl: set.ttl,
    };
    match &set.data {
        DataRef::Rows(rows) => put_rows(writer, &head, rows, limit),
        DataRef::Row(rdata) => {
            let known = writer.known(head.owner, None);
            put_row(writer, &head, known, rdata.octets(), limit)
        }
    }
}

/// Writes records with this data, up to the limit. Their owner is looked up until a pointer is
/// found.
fn put_rows<'a, A: Allocator + Copy>(
    writer: &mut Writer<'a, A>,
    head: &Head<'a>,
    rows: &'a [Rdata<A>],
    limit: usize,
) -> Result<(), Fault>
    requires shaped { AllByRecursion (IsShaped head.now.kind) rows.now }
    requires laid { IsLaidOut head.now.owner.now }
    requires holds { HoldsText writer.old }
    requires limit { limit ≤ 65535 }
    requires within { length writer.old.octets.items ≤ limit }
    ensures { let records = records_of (labels_of head.now.owner.now) head.now.kind head.now.class head.now.ttl
        rows.now in Puts limit result writer.old writer.new (each record_text records)
        (AllByRecursion IsRecord records) }
{
    let mut known = None;
    for rdata in rows {
        known = writer.known(head.owner, known);
        put_row(writer, head, known, rdata.octets(), limit)?;
    }
    Ok(())
}

/// Writes a record with this data, which has the shape of its type, up to the limit. `known` is the
/// pointer to its owner, if any.
fn put_row<'a, A: Allocator + Copy>(
    writer: &mut Writer<'a, A>,
    head: &Head<'a>,
    known: Option<u16>,
    rdata: &'a [u8],
    limit: usize,
) -> Result<(), Fault>
    requires shaped { IsShaped head.now.kind rdata.now }
    requires laid { IsLaidOut head.now.owner.now }
    requires known { IfSome known (λ pointer. IsKnown writer.old head.now.owner.now pointer) }
    requires holds { HoldsText writer.old }
    requires limit { limit ≤ 65535 }
    ensures { let entry = record_of (labels_of head.now.owner.now) head.now.kind head.now.class head.now.ttl
        rdata.now in Puts limit result writer.old writer.new (record_text entry) (IsRecord entry) }
{
    put_head(writer, head, known)?;
    put_shaped_with_length(writer, head.kind, rdata, limit)?;
    Ok(())
}

/// Writes the part of a record before its data and their length. `known` is the pointer to its
/// owner, if any.
fn put_head<'a, A: Allocator + Copy>(
    writer: &mut Writer<'a, A>,
    head: &Head<'a>,
    known: Option<u16>,
) -> Result<(), AllocError>
    requires laid { IsLaidOut head.now.owner.now }
    requires known { IfSome known (λ pointer. IsKnown writer.old head.now.owner.now pointer) }
    ensures { (rdata : List ℕ) → OnOk result (Writes writer.old writer.new
        (head_text (record_of (labels_of head.now.owner.now) head.now.kind head.now.class head.now.ttl rdata))) }
{
    let numbers = numbers_of(head);
    match known {
        Some(pointer) => writer.put(&after_pointer(pointer, numbers))?,
        None => {
            writer.put_name(head.owner)?;
            writer.put(&numbers)?;
        }
    }
    Ok(())
}

/// Type, class and TTL.
fn numbers_of(head: &Head<'_>) -> [u8; 8]
    ensures { result ≡ octets16 head.now.kind ++ octets16 head.now.class ++ octets32 head.now.ttl }
{
    let mut octets = [0; 8];
    octets[..4].copy_from_slice(&kind_and_class(head.kind, head.class));
    BigEndian::write_u32(&mut octets[4..], head.ttl);
    octets
}

/// A type and a class.
fn kind_and_class(kind: u16, class: u16) -> [u8; 4]
    ensures { result ≡ octets16 kind ++ octets16 class }
{
    let mut octets = [0; 4];
    BigEndian::write_u16(&mut octets, kind);
    BigEndian::write_u16(&mut octets[2..], class);
    octets
}

/// The pointer to an owner, followed by these octets.
fn after_pointer(pointer: u16, numbers: [u8; 8]) -> [u8; 10]
    ensures { result ≡ octets16 pointer ++ numbers }
{
    let mut octets = [0; 10];
    BigEndian::write_u16(&mut octets, pointer);
    octets[2..].copy_from_slice(&numbers);
    octets
}
