//! The data of records, written with pointers if its type allows them.

ghost use Rattle.std.specs.Prelude.{◌≡◌, ◌≤◌, ◌<◌, ◌+◌, ◌++◌, ◌∷◌, [], length, OnOk, take, drop, IsTrue, is_some};
ghost use Rattle.std.specs.Prelude.{MatchOption, None, Ok, Err};
ghost use Rattle.dns_message.specs.declared.names.fault.Fault.TheVariants.{Memory};
ghost use Rattle.dns_name.specs.Labels.{IsLaidOut};
ghost use Rattle.dns_message.specs.Names.{name_within, inside};
ghost use Rattle.dns_message.specs.Reading.{end_read};
ghost use Rattle.dns_message.specs.Data.{IsShaped};
ghost use Rattle.dns_message.specs.Fields.{fields_of, first_field, has_name, size_of_parts};
ghost use Rattle.dns_message.specs.Writing.{octets16, as_is, with_length, data_text, field_text, by_fields};
ghost use Rattle.dns_message.specs.Writer.{Writes, Puts, HoldsText, IsFirst, field_in};

use crate::names::Fault;
use crate::reading::{Part, shape_of};
use crate::writing::writer::Writer;
use byteorder::{BigEndian, ByteOrder};
use std::alloc::{AllocError, Allocator};

/// The most octets of a name (RFC 1035 2.3.4).
const NAME_MOST: usize = 255;

/// The most octets of a label (RFC 1035 2.3.4).
const LABEL_MOST: usize = 63;

/// Writes the data of a record of this type after its length, up to the limit.
#[tactic(auto, unfolding(crate::specs::Writing::data_text))]
pub(crate) fn put_with_length<'a, A: Allocator + Copy>(
    writer: &mut Writer<'a, A>,
    kind: u16,
    rdata: &'a [u8],
    limit: usize,
) -> Result<(), Fault>
    requires holds { HoldsText writer.old }
    requires limit { limit ≤ 65535 }
    ensures { Puts limit result writer.old writer.new (with_length (data_text kind rdata.now)) (Unit {0}) }
{
    match shape_of(kind) {
        Some(shape) if shape.compressed && are_parts(shape.parts, rdata) => {
            put_parts_with_length(writer, shape.parts, rdata, limit)
        }
        _ => put_plain_with_length(writer, rdata, limit),
    }
}

/// Whether the octets are these parts, in order.
fn are_parts(parts: &[Part], octets: &[u8]) -> bool
    ensures { result ≡ is_some (fields_of parts.now octets.now) }
{
    let mut rest = octets;
    for part in parts {
        match split_part(*part, rest) {
            None => return false,
            Some((_, after)) => rest = after,
        }
    }
    rest.is_empty()
}

/// Writes data with the shape of its type, unchecked, after its length, up to the limit.
#[tactic(auto, unfolding(crate::specs::Writing::data_text))]
pub(crate) fn put_shaped_with_length<'a, A: Allocator + Copy>(
    writer: &mut Writer<'a, A>,
    kind: u16,
    rdata: &'a [u8],
    limit: usize,
) -> Result<(), Fault>
    requires shaped { IsShaped kind rdata.now }
    requires holds { HoldsText writer.old }
    requires limit { limit ≤ 65535 }
    ensures { Puts limit result writer.old writer.new (with_length (data_text kind rdata.now)) (Unit {0}) }
{
    match shape_of(kind) {
        Some(shape) if shape.compressed => {
            put_parts_with_length(writer, shape.parts, rdata, limit)
        }
        _ => put_plain_with_length(writer, rdata, limit),
    }
}

/// Writes octets that are these parts after their length.
#[inline(always)]
fn put_parts_with_length<'a, A: Allocator + Copy>(
    writer: &mut Writer<'a, A>,
    parts: &[Part],
    octets: &'a [u8],
    limit: usize,
) -> Result<(), Fault>
    requires parts { IsTrue (is_some (fields_of parts.now octets.now)) }
    requires holds { HoldsText writer.old }
    requires limit { limit ≤ 65535 }
    ensures { Puts limit result writer.old writer.new (with_length
        (by_fields (fields_of parts.now octets.now) octets.now)) (Unit {0}) }
{
    let start = writer.octets.len();
    writer.put_u16(0)?;
    put_parts(writer, parts, octets)?;
    writer.check(limit)?;
    let len = writer.octets.len() - start - 2;
    set_u16(&mut writer.octets, start, len as u16);
    Ok(())
}

/// Writes octets that are these parts: all octets after the last name at once.
fn put_parts<'a, A: Allocator + Copy>(
    writer: &mut Writer<'a, A>,
    parts: &[Part],
    octets: &'a [u8],
) -> Result<(), AllocError>
    requires { IsTrue (is_some (fields_of parts.now octets.now)) }
    ensures { OnOk result (Writes writer.old writer.new (by_fields (fields_of parts.now octets.now) octets.now)) }
{
    let mut left = parts;
    let mut rest = octets;
    while has_name(left) {
        let Some((part, others)) = left.split_first() else {
            unreachable!()
        };
        let Some((first, after)) = split_before(*part, others, rest) else {
            unreachable!()
        };
        put_part(writer, *part, first)?;
        left = others;
        rest = after;
    }
    writer.put(rest)?;
    Ok(())
}

/// Whether a name is among the parts.
fn has_name(parts: &[Part]) -> bool
    ensures { result ≡ has_name parts.now }
{
    for part in parts {
        if let Part::Name = part {
            return true;
        }
    }
    false
}

/// `split_part` of octets that are this part followed by `others`. The last name ends before the
/// others' octets, so no walk along its labels is needed.
fn split_before<'a>(part: Part, others: &[Part], octets: &'a [u8]) -> Option<(&'a [u8], &'a [u8])>
    requires { IsTrue (is_some (fields_of (part ∷ others.now) octets.now)) }
    ensures { MatchOption result (first_field part octets.now ≡ None) (λ x. IsFirst part octets.now x.0.now x.1.now) }
{
    match (part, size_of_parts(others)) {
        (Part::Name, Some(size)) => Some(split_name(octets, octets.len() - size)),
        _ => split_part(part, octets),
    }
}

/// The number of octets of these parts, if equal in all data.
#[tactic(auto, unfolding(crate::specs::Fields::size_of_parts))]
fn size_of_parts(parts: &[Part]) -> Option<usize>
    ensures { result ≡ size_of_parts parts.now }
{
    match parts {
        [] => Some(0),
        [Part::SoaNumbers] => Some(20),
        _ => None,
    }
}

/// The part in front of the octets, and the octets after; a name without the final zero.
#[tactic(auto, unfolding(crate::specs::Fields::first_field))]
fn split_part(part: Part, octets: &[u8]) -> Option<(&[u8], &[u8])>
    ensures { MatchOption result (first_field part octets.now ≡ None) (λ x. IsFirst part octets.now x.0.now x.1.now) }
{
    match part {
        Part::Name => Some(split_name(octets, name_end(octets)?)),
        Part::Number16 => split_octets(octets, 2),
        Part::SoaNumbers => split_octets(octets, 20),
        Part::Text => match octets {
            [] => None,
            [len, ..] => split_octets(octets, *len as usize + 1),
        },
    }
}

/// The name in front of octets, up to this end, without the final zero; and the octets after.
fn split_name(octets: &[u8], end: usize) -> (&[u8], &[u8])
    requires { Ok end ≡ end_read (name_within octets.now (inside (length octets.now)) 0) }
    ensures { IsFirst Part.Name octets.now result.0.now result.1.now }
{
    let (name, after) = octets.split_at(end);
    (&name[..end - 1], after)
}

/// The place after the name in front of octets without pointers: after its zero octet.
#[tactic(auto, unfolding(crate::specs::Fields::first_field))]
fn name_end(octets: &[u8]) -> Option<usize>
    ensures { MatchOption result (first_field Part.Name octets.now ≡ None) (λ end. Ok end
        ≡ end_read (name_within octets.now (inside (length octets.now)) 0)) }
{
    let most = octets.len().min(NAME_MOST);
    let mut at = 0;
    while at < most {
        let len = octets[at] as usize;
        if len == 0 {
            return Some(at + 1);
        }
        if len > LABEL_MOST {
            return None;
        }
        at += len + 1;
    }
    None
}

/// The first `count` octets, and the rest.
fn split_octets(octets: &[u8], count: usize) -> Option<(&[u8], &[u8])>
    ensures { MatchOption result (length octets.now < count) (λ x. (x.0.now ≡ take count octets.now)
        × (x.1.now ≡ drop count octets.now) × (count ≤ length octets.now)) }
{
    if octets.len() < count {
        return None;
    }
    Some(octets.split_at(count))
}

/// Writes a part.
fn put_part<'a, A: Allocator + Copy>(
    writer: &mut Writer<'a, A>,
    part: Part,
    first: &'a [u8],
) -> Result<(), AllocError>
    requires { part ≡ Part.Name → IsLaidOut first.now }
    ensures { OnOk result (Writes writer.old writer.new (field_text (field_in part first.now))) }
{
    match part {
        Part::Name => writer.put_later_name(first),
        _ => writer.put(first),
    }
}

/// Puts a number in place of two octets.
fn set_u16(octets: &mut [u8], offset: usize, number: u16)
    requires { offset + 2 ≤ length octets.old }
    ensures { octets.new ≡ take offset octets.old ++ octets16 number ++ drop (offset + 2) octets.old }
{
    BigEndian::write_u16(&mut octets[offset..offset + 2], number);
}

/// Writes octets without names after their length; nothing if the limit forbids.
fn put_plain_with_length<'a, A: Allocator + Copy>(
    writer: &mut Writer<'a, A>,
    octets: &[u8],
    limit: usize,
) -> Result<(), Fault>
    requires holds { HoldsText writer.old }
    requires limit { limit ≤ 65535 }
    ensures put { Puts limit result writer.old writer.new (with_length (as_is octets.now)) (Unit {0}) }
    ensures memory { result ≡ Err Memory → length writer.old.octets.items + 2 + length octets.now ≤ limit }
{
    if octets.len() + 2 > writer.room(limit) {
        return Err(Fault::TooLarge);
    }
    writer.put_u16(octets.len() as u16)?;
    writer.put(octets)?;
    Ok(())
}
