//! The places of the records of a message.

ghost use Rattle.std.specs.Iterator.{YieldsFirst, item_count};
ghost use Rattle.std.specs.Prelude.{◌≡◌, ◌≤◌, ◌∷◌, [], MatchOption, length};
ghost use Rattle.dns_message.specs.Sizes.{AreSizes};
ghost use Rattle.dns_message.specs.Spans.{sections_of, spans_at, spans_of};

use crate::names::{PLACES, SMALL, number16};
use crate::reading::records::{readable_record_end, skip_questions, skip_record};
use std::marker::Model;

/// The number of the answer section.
const ANSWERS: u8 = 0;

/// The number of the authority section.
const AUTHORITY: u8 = 1;

/// The number of the additional section.
const ADDITIONAL: u8 = 2;

/// The place of a record in a message, in octets from its front.
#[derive(Clone, Copy, Debug, PartialEq, Eq)]
pub struct Span {
    /// The first octet of the owner's name.
    pub start: usize,
    /// The first octet after the data.
    pub end: usize,
    /// 0 for answers, 1 for authority, 2 for additional.
    pub section: u8,
}

/// The number of records left in each section.
#[derive(Clone, Copy)]
pub(crate) struct Left {
    pub answers: u16,
    pub authority: u16,
    pub additional: u16,
}

/// The spans of the readable records, in order. A step takes time in proportion to the octets of
/// the owner's own name: readable records were counted before, so no pointer is followed.
#[derive(Drop)]
pub struct Records<'a> {
    bytes: &'a [u8],
    offset: usize,
    left: Left,
    /// The number of readable records left.
    readable: usize,
}

impl<'a> Model for Records<'a> {
    ghost use Rattle.std.specs.Prelude.{List, length, ◌≡◌};
    ghost use Rattle.dns_message.specs.declared.reading.spans.Span.{Span};

    ghost Value = { List Span };

    ghost use Rattle.dns_message.specs.Spans.{sections_of, spans_at};

    ghost view = { λ r. spans_at r.bytes.now (sections_of r.left) r.offset };

    ghost invariant = { λ r. r.readable ≡ length (spans_at r.bytes.now (sections_of r.left) r.offset) };
}

impl<'a> Iterator for Records<'a> {
    type Item = Span;

    ghost next_gives = { YieldsFirst (λ s. s) };

    ghost remaining = { item_count (λ s. s) };

    #[tactic(auto, using(crate::proofs::reading::SpanLaws::first_readable, crate::proofs::reading::SpanLaws::one_here_first, crate::proofs::reading::SpanLaws::none_counted))]
    fn next(&mut self) -> Option<Span> {
        if self.readable == 0 {
            return None;
        }
        let (section, left) = next_section(self.left)?;
        let start = self.offset;
        let end = readable_record_end(self.bytes, start);
        self.offset = end;
        self.left = left;
        self.readable -= 1;
        Some(Span {
            start,
            end,
            section,
        })
    }
}

/// The spans of the records of a message.
#[tactic(auto, using(crate::proofs::names::SizeLaws::none_kept))]
pub(crate) fn records_in<'a>(bytes: &'a [u8]) -> Records<'a>
    requires { 12 ≤ length bytes.now }
    ensures { result ≡ spans_of bytes.now }
{
    if bytes.len() > SMALL {
        return records_in_large(bytes);
    }
    records_with(bytes, &mut [])
}

/// `records_with` of a message that may have many pointers to one name. Out of line, as few
/// messages need its 16 KiB.
#[tactic(auto, using(crate::proofs::names::SizeLaws::none_known))]
#[inline(never)]
fn records_in_large<'a>(bytes: &'a [u8]) -> Records<'a>
    requires { 12 ≤ length bytes.now }
    ensures { result ≡ spans_of bytes.now }
{
    let mut sizes = [0u8; PLACES];
    records_with(bytes, &mut sizes)
}

/// The spans of the records of a message, with the sizes of pointers' target names remembered in
/// `sizes`.
#[tactic(auto, unfolding(crate::specs::Spans::spans_of, crate::specs::Spans::spans_at))]
fn records_with<'a>(bytes: &'a [u8], sizes: &mut [u8]) -> Records<'a>
    requires header { 12 ≤ length bytes.now }
    requires known { AreSizes bytes.now sizes.old }
    ensures { result ≡ spans_of bytes.now }
{
    match skip_questions(bytes, sizes, 12, number16(bytes, 4)) {
        Ok(offset) => {
            let left = Left {
                answers: number16(bytes, 6),
                authority: number16(bytes, 8),
                additional: number16(bytes, 10),
            };
            let readable = readable_records(bytes, sizes, offset, left);
            Records {
                bytes,
                offset,
                left,
                readable,
            }
        }
        Err(_) => Records {
            bytes,
            offset: 12,
            left: Left {
                answers: 0,
                authority: 0,
                additional: 0,
            },
            readable: 0,
        },
    }
}

/// The number of readable counted records from a place on, up to the first unreadable record.
#[tactic(auto, using(crate::proofs::reading::SpanLaws::one_counted_here, crate::proofs::reading::SpanLaws::none_counted_here, crate::proofs::reading::SpanLaws::none_counted, crate::proofs::reading::SpanLaws::sections_counted))]
fn readable_records(bytes: &[u8], sizes: &mut [u8], offset: usize, left: Left) -> usize
    requires { AreSizes bytes.now sizes.old }
    ensures { result ≡ length (spans_at bytes.now (sections_of left) offset) }
{
    let (mut at, mut left) = (offset, left);
    let mut count = 0;
    while let Some((_, after)) = next_section(left) {
        let Ok(end) = skip_record(bytes, sizes, at) else {
            return count;
        };
        count += 1;
        at = end;
        left = after;
    }
    count
}

/// The section of the next record, and the records left after.
fn next_section(left: Left) -> Option<(u8, Left)>
    ensures { MatchOption result (sections_of left ≡ []) (λ x. sections_of left ≡ x.0 ∷ sections_of x.1) }
{
    if left.answers > 0 {
        return Some((
            ANSWERS,
            Left {
                answers: left.answers - 1,
                ..left
            },
        ));
    }
    if left.authority > 0 {
        return Some((
            AUTHORITY,
            Left {
                authority: left.authority - 1,
                ..left
            },
        ));
    }
    if left.additional > 0 {
        return Some((
            ADDITIONAL,
            Left {
                additional: left.additional - 1,
                ..left
            },
        ));
    }
    None
}
