//! Hints for servers, and for the address to listen at.

use crate::hint::Hint;
use crate::strings::{first_not_ascii, has_leading_zero};
use suffix_routes::Place;

/// The hint for a text at this place that is no address with a port.
pub(crate) fn hint_for_peer(place: Place, text: &[u8]) -> Option<Hint> {
    if let Some(character) = first_not_ascii(text) {
        Some(Hint::NotAscii(character))
    } else if text.starts_with(b"/") || text.starts_with(b"[/") {
        Some(Hint::RouteParts)
    } else if let Some(scheme) = scheme_of(text) {
        Some(hint_for_scheme(scheme))
    } else if is_several(text) {
        Some(hint_for_several(place))
    } else if text.iter().filter(|octet| **octet == b':').count() > 1 || text.contains(&b'[') {
        Some(hint_for_colons(text))
    } else {
        hint_for_address(place, text)
    }
}

/// What is before `://`.
fn scheme_of(text: &[u8]) -> Option<&[u8]> {
    let end = text.iter().position(|octet| *octet == b':')?;
    if text[end..].starts_with(b"://") {
        Some(&text[..end])
    } else {
        None
    }
}

fn hint_for_scheme(scheme: &[u8]) -> Hint {
    if scheme.eq_ignore_ascii_case(b"udp") || scheme.eq_ignore_ascii_case(b"tcp") {
        Hint::AddressAlone
    } else {
        Hint::NotEncrypted
    }
}

/// Whether there are several addresses or names, with spaces, commas or semicolons between.
fn is_several(text: &[u8]) -> bool {
    let parts = text.split(|octet| matches!(*octet, b' ' | b'\t' | b',' | b';'));
    parts.filter(|part| is_whole(part)).count() > 1
}

/// Four numbers with dots between, or a name with a dot.
fn is_whole(part: &[u8]) -> bool {
    let dots = part.iter().filter(|octet| **octet == b'.').count();
    dots >= 3 || dots > 0 && part.iter().any(|octet| octet.is_ascii_alphabetic())
}

/// The hint for brackets or several colons: of an IPv6 address, or around four numbers.
fn hint_for_colons(text: &[u8]) -> Hint {
    let inside = text.strip_prefix(b"[").unwrap_or(text);
    match inside.iter().find(|octet| !octet.is_ascii_digit()) {
        Some(b'.') => Hint::AddressAlone,
        _ => Hint::OnlyIpv4,
    }
}

fn hint_for_several(place: Place) -> Hint {
    match place {
        Place::Listen => Hint::OneAddress,
        _ => Hint::OneServer,
    }
}

/// The hint for a single text of ASCII that is no IPv6 address.
fn hint_for_address(place: Place, text: &[u8]) -> Option<Hint> {
    if text.contains(&b'%') {
        Some(Hint::NoInterface)
    } else if begins_with_digit(text) && (text.contains(&b'@') || text.contains(&b'#')) {
        Some(hint_for_mark(text))
    } else if begins_with_digit(text) && text.iter().any(|octet| is_stray(*octet)) {
        Some(hint_for_stray(text))
    } else if text.iter().any(|octet| octet.is_ascii_alphabetic()) {
        Some(Hint::AddressNotName)
    } else if has_leading_zero(text) {
        Some(Hint::LeadingZero)
    } else if place == Place::Listen && (text.starts_with(b"*") || text.starts_with(b":")) {
        Some(Hint::AllAddresses)
    } else if text.contains(&b':') || text.is_empty() {
        None
    } else if text.iter().filter(|octet| **octet == b'.').count() > 3 {
        Some(Hint::PortAfterColon)
    } else {
        Some(Hint::PortMissing)
    }
}

/// An octet between an address and its port, or within them, where none belongs.
fn is_stray(octet: u8) -> bool {
    matches!(octet, b' ' | b'\t' | b',' | b';' | b'/')
}

/// The hint for a single address with an octet where none belongs: before a port, before a word, or
/// elsewhere.
fn hint_for_stray(text: &[u8]) -> Hint {
    let mut parts = text.split(|octet| is_stray(*octet));
    let (first, last) = (
        parts.next().unwrap_or(&[]),
        parts.next_back().unwrap_or(&[]),
    );
    if text.iter().any(|octet| octet.is_ascii_alphabetic()) {
        Hint::AddressAlone
    } else if is_whole(first) && !first.contains(&b':') && last.iter().all(u8::is_ascii_digit) {
        Hint::PortAfterColon
    } else {
        match text.iter().find(|octet| is_stray(**octet)) {
            Some(octet) => Hint::Character(char::from(*octet)),
            None => Hint::AddressAlone,
        }
    }
}

fn begins_with_digit(text: &[u8]) -> bool {
    match text.first() {
        Some(octet) => octet.is_ascii_digit(),
        None => false,
    }
}

/// The hint for an address followed by `@` or `#`, as dnsmasq and unbound write a port, an
/// interface, or a server's name in TLS.
fn hint_for_mark(text: &[u8]) -> Hint {
    if has_letter_after(text, b'@') {
        Hint::NoInterface
    } else if has_letter_after(text, b'#') || text.ends_with(b"@853") || text.ends_with(b"#853") {
        Hint::NotEncrypted
    } else {
        Hint::PortAfterColon
    }
}

/// Whether a letter follows such an octet.
fn has_letter_after(text: &[u8], mark: u8) -> bool {
    let mut is_after = false;
    for octet in text {
        if is_after && octet.is_ascii_alphabetic() {
            return true;
        }
        is_after = *octet == mark;
    }
    false
}
