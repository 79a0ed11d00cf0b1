//! Hints for suffixes.

use crate::hint::Hint;
use crate::strings::first_not_ascii;
use dns_name::NameFault;

/// The hint for a text that is no name.
pub(crate) fn hint_for_name(text: &[u8], fault: NameFault) -> Option<Hint> {
    if text.starts_with(b"/") {
        return Some(Hint::RouteParts);
    }
    if text.len() > 1 && (text.starts_with(b".") || text.starts_with(b"*.")) {
        return Some(Hint::SuffixAlone);
    }
    if fault != NameFault::BadCharacter {
        return None;
    }
    if is_network(text) {
        return Some(Hint::Network);
    }
    if let Some(character) = first_not_ascii(text) {
        return Some(hint_for_character(text, character));
    }
    let octet = text.iter().find(|octet| !is_of_name(**octet))?;
    Some(Hint::Character(char::from(*octet)))
}

/// A letter, a digit, a hyphen or a low line, or the dot between labels.
fn is_of_name(octet: u8) -> bool {
    octet.is_ascii_alphanumeric() || octet == b'-' || octet == b'_' || octet == b'.'
}

/// Digits, dots and a slash, as in 10.0.0.0/8.
fn is_network(text: &[u8]) -> bool {
    text.contains(&b'/')
        && text.iter().all(|octet| octet.is_ascii_digit() || matches!(*octet, b'.' | b'/'))
}

/// The hint for a name with this first character outside ASCII.
fn hint_for_character(text: &[u8], character: char) -> Hint {
    if is_unseen(character) {
        return Hint::Unseen(character);
    }
    if is_like_ascii(character) {
        return Hint::NotAscii(character);
    }
    match script_of(character) {
        Some(script) if is_latin_too(text) => Hint::OtherScript(character, script),
        _ => Hint::NotAsciiName(character),
    }
}

/// A script with letters that look Latin.
fn script_of(character: char) -> Option<&'static str> {
    match character {
        '\u{400}'..='\u{52f}' => Some("Cyrillic"),
        '\u{370}'..='\u{3ff}' => Some("Greek"),
        _ => None,
    }
}

/// A dash, a dot, or a letter in the width of an ideograph.
fn is_like_ascii(character: char) -> bool {
    matches!(
        character,
        '\u{2010}'..='\u{2015}' | '\u{2024}' | '\u{2212}' | '\u{3002}' | '\u{ff01}'..='\u{ff61}'
    )
}

/// A space outside ASCII, or a character without a width.
fn is_unseen(character: char) -> bool {
    matches!(
        character,
        '\u{a0}' | '\u{ad}' | '\u{2000}'..='\u{200f}' | '\u{2028}'..='\u{202f}'
            | '\u{205f}'..='\u{206f}' | '\u{3000}' | '\u{feff}'
    )
}

/// Whether the first label outside ASCII has Latin letters, too.
fn is_latin_too(text: &[u8]) -> bool {
    match text
        .split(|octet| *octet == b'.')
        .find(|label| !label.is_ascii())
    {
        Some(label) => label.iter().any(|octet| octet.is_ascii_alphabetic()),
        None => false,
    }
}
