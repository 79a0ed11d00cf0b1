//! Hints for a text that is no TOML.

use crate::hint::Hint;
use crate::limits::hint_for_limit;
use crate::opened::open_after;
use crate::strings::{first_not_ascii, has_leading_zero};
use suffix_routes::Position;

/// The hint for a text, read as TOML up to the octet `at`. `None` if nothing is known.
pub fn hint_for_text(octets: &[u8], at: usize) -> Option<Hint> {
    let (before, rest) = octets.split_at(at.min(octets.len()));
    if let Some(hint) = hint_for_character(before, rest) {
        return Some(hint);
    }
    if is_value_wanted(before) {
        return hint_for_value(key_before(before), word(rest));
    }
    hint_for_opened(before, rest)
}

/// The hint for the first character not read.
fn hint_for_character(before: &[u8], rest: &[u8]) -> Option<Hint> {
    let first = rest.first()?;
    let second = rest.get(1);
    if *first == b'\r' && second != Some(&b'\n') {
        return Some(Hint::CarriageReturn);
    }
    if *first == b'/' && second == Some(&b'/') {
        return Some(Hint::Comment);
    }
    let is_between_digits = is_digit(before.last()) && is_digit(second);
    if matches!(*first, b',' | b'\'') && is_between_digits && open_after(before).is_none() {
        return Some(Hint::DigitsAlone);
    }
    if first.is_ascii() {
        return None;
    }
    Some(Hint::NotAscii(first_not_ascii(rest)?))
}

fn is_digit(octet: Option<&u8>) -> bool {
    match octet {
        Some(octet) => octet.is_ascii_digit(),
        None => false,
    }
}

/// A value has to follow these octets.
fn is_value_wanted(before: &[u8]) -> bool {
    match before.iter().rev().find(|octet| **octet != b' ') {
        Some(octet) => matches!(octet, b'=' | b'[' | b','),
        None => false,
    }
}

/// The bare key whose value follows these octets; empty if there is none.
fn key_before(before: &[u8]) -> &[u8] {
    match before.trim_ascii_end().strip_suffix(b"=") {
        Some(text) => last_word(text.trim_ascii_end()),
        None => &[],
    }
}

/// The octets at the end that could be a bare key.
fn last_word(text: &[u8]) -> &[u8] {
    match text
        .rsplit(|octet| !octet.is_ascii_alphanumeric() && *octet != b'_')
        .next()
    {
        Some(word) => word,
        None => text,
    }
}

/// The octets at the front that could be a value without quotation marks.
fn word(rest: &[u8]) -> &[u8] {
    let end = rest.iter().position(|octet| !is_of_word(*octet));
    &rest[..end.unwrap_or(rest.len())]
}

fn is_of_word(octet: u8) -> bool {
    octet.is_ascii_alphanumeric() || matches!(octet, b'.' | b':' | b'-' | b'_' | b'+')
}

/// The hint for a value of this key without quotation marks.
fn hint_for_value(key: &[u8], word: &[u8]) -> Option<Hint> {
    let first = word.first()?;
    if is_like_boolean(word) {
        return Some(Hint::Boolean);
    }
    if first.is_ascii_alphabetic() || word.iter().any(|octet| matches!(octet, b'.' | b':')) {
        return Some(Hint::Quotes);
    }
    if word.iter().any(|octet| octet.is_ascii_alphabetic()) {
        return Some(hint_for_limit(key, Hint::DigitsAlone));
    }
    if has_leading_zero(word) {
        return Some(Hint::LeadingZero);
    }
    None
}

/// A word for true or false.
fn is_like_boolean(word: &[u8]) -> bool {
    word.eq_ignore_ascii_case(b"true")
        || word.eq_ignore_ascii_case(b"false")
        || word.eq_ignore_ascii_case(b"yes")
        || word.eq_ignore_ascii_case(b"no")
        || word.eq_ignore_ascii_case(b"on")
        || word.eq_ignore_ascii_case(b"off")
}

/// The hint for a bracket or quotation mark still open at the end of the octets read. A bracket
/// before a further element is closed, as a rule: a comma is missing.
fn hint_for_opened(before: &[u8], rest: &[u8]) -> Option<Hint> {
    let (place, is_quote) = open_after(before)?;
    let is_element = match rest.first() {
        Some(octet) => matches!(octet, b'"' | b'\'') || octet.is_ascii_digit(),
        None => false,
    };
    if is_element && !is_quote {
        return None;
    }
    Some(Hint::NotClosed(Position::after(before.get(..place)?)))
}
