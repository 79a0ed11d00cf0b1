//! Names in text: labels with dots between them.

ghost use Rattle.std.specs.Iterator.{YieldsFirstRef, item_count};
ghost use Rattle.std.specs.Prelude.{◌≡◌, ◌≢◌, ◌∷◌, MatchResult, Some, None, Err, IsOk, position};
ghost use Rattle.std.specs.Option.{option_copied};
ghost use Rattle.std.specs.List.{list_all};
ghost use Rattle.dns_name.specs.Faults.{Gives, first_fault, judged};
ghost use Rattle.dns_name.specs.declared.fault.NameFault.TheVariants.{Memory};
ghost use Rattle.dns_name.specs.Text.{is_dot, is_label_character, written_label_fault, parts_of, parts_left, name_in};

use crate::builder::NameBuilder;
use crate::fault::NameFault;
use crate::name::Name;
use std::alloc::Allocator;
use std::marker::Model;

impl<A: Allocator> Name<A> {
    /// The name of a text: labels of ASCII letters, digits, hyphens and underscores, parted by
    /// dots. A dot may end the text; a dot alone is the root (RFC 1035 5.1).
    ///
    /// The fault is the first from the left: `EmptyLabel` (of the empty text too), `BadCharacter`,
    /// or `LabelLong`, which is judged at the end of the label; after all labels `NameLong`.
    /// `Memory` if memory ran out, and only if the text is a name.
    pub fn from_text(alloc: A, text: &str) -> Result<Name<A>, NameFault>
        ensures given { Gives (λ n. n) result (name_in text.now) }
        ensures memory { result ≡ Err Memory → IsOk (name_in text.now) }
    {
        match text.as_bytes() {
            [b'.'] => Ok(Name::root()),
            [labels @ .., b'.'] => name_of_parts(alloc, labels),
            labels => name_of_parts(alloc, labels),
        }
    }
}

/// The name whose labels are between the dots.
fn name_of_parts<A: Allocator>(alloc: A, text: &[u8]) -> Result<Name<A>, NameFault>
    ensures given { Gives (λ n. n) result (judged written_label_fault (parts_of text.now)) }
    ensures memory { result ≡ Err Memory → IsOk (judged written_label_fault (parts_of text.now)) }
{
    check_parts(text)?;
    let mut builder = NameBuilder::new();
    for label in parts_of(text) {
        builder.push(label)?;
    }
    Ok(builder.name(alloc)?)
}

/// The first fault of the labels between the dots, from the left.
fn check_parts(text: &[u8]) -> Result<(), NameFault>
    ensures first { MatchResult result (λ _. first_fault written_label_fault (parts_of text.now) ≡ None)
        (λ e. first_fault written_label_fault (parts_of text.now) ≡ Some e) }
    ensures memory { result ≢ Err Memory }
{
    for label in parts_of(text) {
        check_label(label)?;
    }
    Ok(())
}

/// The parts of a text between its dots, from left to right.
#[derive(Drop)]
struct Parts<'a> {
    rest: Option<&'a [u8]>,
}

impl<'a> Model for Parts<'a> {
    ghost use Rattle.std.specs.Prelude.{List, ℕ};
    ghost use Rattle.std.specs.Option.{option_copied};
    ghost use Rattle.dns_name.specs.Text.{parts_left};

    ghost Value = { List (List ℕ) };

    ghost view = { λ p. parts_left (option_copied p.rest) };
}

impl<'a> Iterator for Parts<'a> {
    type Item = &'a [u8];

    ghost next_gives = { YieldsFirstRef (λ s. s) };

    ghost remaining = { item_count (λ s. s) };

    fn next(&mut self) -> Option<&'a [u8]> {
        let (part, rest) = cut_at_dot(self.rest?);
        self.rest = rest;
        Some(part)
    }
}

fn parts_of(text: &[u8]) -> Parts<'_>
    ensures { result ≡ parts_of text.now }
{
    Parts { rest: Some(text) }
}

/// The first part of a text, and the part after its dot, if any.
fn cut_at_dot(text: &[u8]) -> (&[u8], Option<&[u8]>)
    ensures { parts_of text.now ≡ result.0.now ∷ parts_left (option_copied result.1) }
{
    match first_dot(text) {
        Some(at) => (&text[..at], Some(&text[at + 1..])),
        None => (text, None),
    }
}

/// The place of the first dot.
fn first_dot(text: &[u8]) -> Option<usize>
    ensures { result ≡ position is_dot text.now }
{
    text.iter().position(|octet| *octet == b'.')
}

/// The first fault of a label in text.
fn check_label(label: &[u8]) -> Result<(), NameFault>
    ensures first { MatchResult result (λ _. written_label_fault label.now ≡ None) (λ e. written_label_fault label.now
        ≡ Some e) }
    ensures memory { result ≢ Err Memory }
{
    if label.is_empty() {
        return Err(NameFault::EmptyLabel);
    }
    if !has_label_characters(label) {
        return Err(NameFault::BadCharacter);
    }
    if label.len() > 63 {
        return Err(NameFault::LabelLong);
    }
    Ok(())
}

/// Whether a label in text may have each of these octets.
fn has_label_characters(label: &[u8]) -> bool
    ensures { result ≡ list_all is_label_character label.now }
{
    label.iter().all(|octet| is_label_character(*octet))
}

/// Whether a label in text may have this octet.
fn is_label_character(octet: u8) -> bool
    ensures { result ≡ is_label_character octet }
{
    octet.is_ascii_alphanumeric() || octet == b'-' || octet == b'_'
}
