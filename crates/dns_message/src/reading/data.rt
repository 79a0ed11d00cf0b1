//! The data of records, by the shape of its type.

ghost use Rattle.std.specs.Prelude.{◌≡◌, ◌≤◌, Err, IfOk, MatchResult, OnErr, None, length};
ghost use Rattle.dns_message.specs.Reading.{Gives, end_read};
ghost use Rattle.dns_message.specs.Shortcuts.{AreShortcuts};
ghost use Rattle.dns_message.specs.Sizes.{AreSizes};
ghost use Rattle.dns_message.specs.Names.{name_within, inside};
ghost use Rattle.dns_message.specs.Data.{octets_within, written_out, prefixed, laid_at, part_at, parts_at, data_at};
ghost use Rattle.dns_message.specs.Data.{name_of_rdata};

use crate::names::{Bound, Fault, part, put_labels, skip_name};
use crate::reading::shape::{Part, shape_of};
use dns_name::{Name, ShortOctets};
use std::alloc::{AllocError, Allocator};

/// The data of a record in a message: its type, and its place.
#[derive(Clone, Copy)]
pub(crate) struct DataPlace {
    pub kind: u16,
    /// The first octet, from the front of the message.
    pub offset: usize,
    /// The number of octets.
    pub len: usize,
}

/// The data at a place, with its names written out in full, and the place after.
#[tactic(auto, unfolding(crate::specs::Data::data_at))]
pub(crate) fn read_data<A: Allocator>(
    alloc: A,
    bytes: &[u8],
    ends: &mut [u16],
    place: DataPlace,
) -> Result<(ShortOctets<A>, usize), Fault>
    requires inside { place.offset ≤ length bytes.now }
    requires known { AreShortcuts bytes.now ends.old }
    ensures exact { Gives (λ x. x) result (data_at place.kind bytes.now place.offset place.len) }
    ensures known { AreShortcuts bytes.now ends.new }
{
    let DataPlace { kind, offset, len } = place;
    if bytes.len() - offset < len {
        return Err(Fault::Short);
    }
    let stop = offset + len;
    match shape_of(kind) {
        None => Ok((
            ShortOctets::from_slice(alloc, part(bytes, offset, len))?,
            stop,
        )),
        Some(shape) => {
            let (octets, end) = read_parts(alloc, bytes, ends, shape.parts, Rest { offset, stop })?;
            Ok((ShortOctets::from_vec(octets), end))
        }
    }
}

/// The rest of the data of a record, in octets from the front of the message.
#[derive(Clone, Copy)]
struct Rest {
    /// The next octet.
    offset: usize,
    /// The first octet after the data.
    stop: usize,
}

/// The parts of the data, written out in full in order. They must end where the data does.
#[tactic(auto, using(crate::proofs::reading::DataLaws::read_more, crate::proofs::reading::DataLaws::read_done, crate::proofs::reading::DataLaws::read_short))]
fn read_parts<A: Allocator>(
    alloc: A,
    bytes: &[u8],
    ends: &mut [u16],
    parts: &[Part],
    rest: Rest,
) -> Result<(Vec<u8, A>, usize), Fault>
    requires inside { rest.stop ≤ length bytes.now }
    requires known { AreShortcuts bytes.now ends.old }
    ensures exact { Gives (λ x. (x.0.items, x.1)) result (parts_at parts.now bytes.now rest.stop rest.offset) }
    ensures known { AreShortcuts bytes.now ends.new }
{
    let Rest { offset, stop } = rest;
    let mut octets = Vec::new(alloc);
    let mut at = offset;
    for part in parts {
        at = read_part(&mut octets, bytes, ends, *part, Rest { offset: at, stop })?;
    }
    if at != stop {
        return Err(Fault::Rdata);
    }
    Ok((octets, at))
}

/// Appends a part of the data, written out in full; returns the place after.
fn read_part<A: Allocator>(
    octets: &mut Vec<u8, A>,
    bytes: &[u8],
    ends: &mut [u16],
    part: Part,
    rest: Rest,
) -> Result<usize, Fault>
    requires inside { rest.stop ≤ length bytes.now }
    requires known { AreShortcuts bytes.now ends.old }
    ensures exact { Gives (λ e. (octets.new.items, e)) result
        (prefixed octets.old.items (part_at part bytes.now rest.stop rest.offset)) }
    ensures known { AreShortcuts bytes.now ends.new }
{
    match plain_count(bytes, part, rest)? {
        None => expand_name(octets, bytes, ends, rest),
        Some(count) => read_octets(octets, bytes, rest, count),
    }
}

/// Appends a name of the data, written out in full; returns the place after.
#[tactic(auto, using(crate::proofs::reading::DataLaws::written_name, crate::proofs::reading::DataLaws::written_fault))]
fn expand_name<A: Allocator>(
    octets: &mut Vec<u8, A>,
    bytes: &[u8],
    ends: &mut [u16],
    rest: Rest,
) -> Result<usize, Fault>
    requires inside { rest.stop ≤ length bytes.now }
    requires known { AreShortcuts bytes.now ends.old }
    ensures exact { Gives (λ e. (octets.new.items, e)) result
        (prefixed octets.old.items (written_out (name_within bytes.now (inside rest.stop) rest.offset))) }
    ensures known { AreShortcuts bytes.now ends.new }
{
    let mut name = [0u8; 255];
    let (used, end) = put_labels(&mut name, bytes, ends, Bound::data(rest.stop), rest.offset)?;
    name[used] = 0;
    octets.extend_from_slice(&name[..used + 1])?;
    Ok(end)
}

/// Appends `count` octets of the data; returns the place after them.
#[tactic(auto, unfolding(crate::specs::Data::octets_within))]
fn read_octets<A: Allocator>(
    octets: &mut Vec<u8, A>,
    bytes: &[u8],
    rest: Rest,
    count: usize,
) -> Result<usize, Fault>
    requires { rest.stop ≤ length bytes.now }
    ensures { Gives (λ e. (octets.new.items, e)) result (prefixed octets.old.items
        (octets_within bytes.now rest.stop rest.offset count)) }
{
    let end = Bound::data(rest.stop).skip(rest.offset, count)?;
    octets.extend_from_slice(part(bytes, rest.offset, count))?;
    Ok(end)
}

/// The place after the data at a place.
#[tactic(auto, unfolding(crate::specs::Data::data_at))]
pub(crate) fn skip_data(bytes: &[u8], sizes: &mut [u8], place: DataPlace) -> Result<usize, Fault>
    requires inside { place.offset ≤ length bytes.now }
    requires known { AreSizes bytes.now sizes.old }
    ensures exact { result ≡ end_read (data_at place.kind bytes.now place.offset place.len) }
    ensures known { AreSizes bytes.now sizes.new }
{
    let DataPlace { kind, offset, len } = place;
    if bytes.len() - offset < len {
        return Err(Fault::Short);
    }
    let stop = offset + len;
    match shape_of(kind) {
        None => Ok(stop),
        Some(shape) => skip_parts(bytes, sizes, shape.parts, Rest { offset, stop }),
    }
}

/// The place after the parts of the data. They must end where the data does.
#[tactic(auto, using(crate::proofs::reading::DataLaws::skip_more, crate::proofs::reading::DataLaws::skip_fault, crate::proofs::reading::DataLaws::skip_done, crate::proofs::reading::DataLaws::skip_short))]
fn skip_parts(bytes: &[u8], sizes: &mut [u8], parts: &[Part], rest: Rest) -> Result<usize, Fault>
    requires inside { rest.stop ≤ length bytes.now }
    requires known { AreSizes bytes.now sizes.old }
    ensures exact { result ≡ end_read (parts_at parts.now bytes.now rest.stop rest.offset) }
    ensures known { AreSizes bytes.now sizes.new }
{
    let Rest { offset, stop } = rest;
    let mut at = offset;
    for part in parts {
        at = skip_part(bytes, sizes, *part, Rest { offset: at, stop })?;
    }
    if stop != at {
        return Err(Fault::Rdata);
    }
    Ok(at)
}

/// The place after a part of the data.
#[tactic(auto, using(crate::proofs::reading::DataLaws::octets_behind))]
fn skip_part(bytes: &[u8], sizes: &mut [u8], part: Part, rest: Rest) -> Result<usize, Fault>
    requires inside { rest.stop ≤ length bytes.now }
    requires known { AreSizes bytes.now sizes.old }
    ensures exact { result ≡ end_read (part_at part bytes.now rest.stop rest.offset) }
    ensures known { AreSizes bytes.now sizes.new }
{
    let bound = Bound::data(rest.stop);
    match plain_count(bytes, part, rest)? {
        None => skip_name(bytes, sizes, bound, rest.offset),
        Some(count) => bound.skip(rest.offset, count),
    }
}

/// The number of octets of a part of the data; `None` for a name.
#[tactic(auto, unfolding(crate::specs::Data::text_within))]
fn plain_count(bytes: &[u8], part: Part, rest: Rest) -> Result<Option<usize>, Fault>
    requires { rest.stop ≤ length bytes.now }
    ensures { MatchResult result
        (λ count. part_at part bytes.now rest.stop rest.offset ≡ laid_at count bytes.now rest.stop rest.offset)
        (λ fault. (fault ≡ Fault.Rdata) × (part_at part bytes.now rest.stop rest.offset ≡ Err fault)) }
{
    match part {
        Part::Name => Ok(None),
        Part::Number16 => Ok(Some(2)),
        Part::SoaNumbers => Ok(Some(20)),
        Part::Text => {
            if rest.offset >= rest.stop {
                return Err(Fault::Rdata);
            }
            Ok(Some(bytes[rest.offset] as usize + 1))
        }
    }
}

/// The name in these octets, whole and with the final zero. Octets of their own have no place for a
/// pointer's target, so none is followed. Only a name allocates.
#[tactic(auto, using(crate::proofs::reading::ShapeLaws::only_name, crate::proofs::reading::ShapeLaws::no_name))]
pub fn read_only_name<A: Allocator>(alloc: A, octets: &[u8]) -> Result<Option<Name<A>>, AllocError>
    ensures name { IfOk result (λ name. name ≡ name_of_rdata octets.now) }
    ensures some { OnErr result (name_of_rdata octets.now ≡ None → ⊥) }
{
    match skip_name(octets, &mut [], Bound::whole(octets), 0) {
        Ok(end) if end == octets.len() => {
            let name = Name::from_octets(alloc, &octets[..end - 1])?;
            Ok(Some(name))
        }
        _ => Ok(None),
    }
}
