//! Comparisons of values in each part, letter case included.

use dns_message::{Message, Question, Record};
use std::alloc::Allocator;

/// Whether two questions are equal.
pub fn is_equal_question<A: Allocator>(one: &Question<A>, other: &Question<A>) -> bool {
    one.name.octets() == other.name.octets() && one.kind == other.kind && one.class == other.class
}

/// Whether two records are equal.
pub fn is_equal_record<A: Allocator>(one: &Record<A>, other: &Record<A>) -> bool {
    one.owner.octets() == other.owner.octets()
        && one.kind == other.kind
        && one.class == other.class
        && one.ttl == other.ttl
        && one.rdata.octets() == other.rdata.octets()
}

/// Whether two lists of questions are equal.
fn are_equal_questions(one: &[Question], other: &[Question]) -> bool {
    for (question, like) in one.iter().zip(other) {
        if !is_equal_question(question, like) {
            return false;
        }
    }
    one.len() == other.len()
}

/// Whether two lists of records are equal.
fn are_equal_records(one: &[Record], other: &[Record]) -> bool {
    for (record, like) in one.iter().zip(other) {
        if !is_equal_record(record, like) {
            return false;
        }
    }
    one.len() == other.len()
}

/// Whether two messages are equal.
pub fn is_equal_message(one: &Message, other: &Message) -> bool {
    one.header == other.header
        && are_equal_questions(one.questions.as_slice(), other.questions.as_slice())
        && are_equal_records(one.answers.as_slice(), other.answers.as_slice())
        && are_equal_records(one.authority.as_slice(), other.authority.as_slice())
        && are_equal_records(one.additional.as_slice(), other.additional.as_slice())
}
