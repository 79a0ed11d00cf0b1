//! Names in a message, with pointers: RFC 1035 4.1.4.

ghost use Rattle.std.specs.Prelude.{◌≡◌, ◌≤◌, ◌↔◌, IsTrue, IsOk, MatchOption, Ok, Err, length, map};
ghost use Rattle.std.specs.Char.{to_ascii_lowercase};
ghost use Rattle.dns_message.specs.Reading.{Gives, end_read};
ghost use Rattle.dns_message.specs.Shortcuts.{AreShortcuts};
ghost use Rattle.dns_message.specs.Sizes.{AreSizes};
ghost use Rattle.dns_message.specs.Names.{name_at, name_within, NameIs, keyed};
ghost use Rattle.dns_message.specs.declared.names.fault.Fault.TheVariants.{Memory};

use crate::names::fault::Fault;
use crate::names::labels::put_labels;
use crate::names::sizes::size_of_name;
use crate::names::walk::{Bound, NameCursor, NameOctet, NextLabel, next_label, step_at};
use dns_name::{Name, NameKey};
use std::alloc::Allocator;

/// The name at a place, and the place after. The targets of pointers are remembered in `ends`,
/// which may be empty.
///
/// `Err` is the first fault of the name from its front: `Short`, `LabelForm`, `Pointer` or
/// `NameLong`; for a readable name `Memory`, if memory ran out.
pub(crate) fn read_name<A: Allocator>(
    alloc: A,
    bytes: &[u8],
    ends: &mut [u16],
    offset: usize,
) -> Result<(Name<A>, usize), Fault>
    requires { AreShortcuts bytes.now ends.old }
    ensures exact { Gives (λ x. x) result (name_at bytes.now offset) }
    ensures memory { result ≡ Err Memory → IsOk (name_at bytes.now offset) }
    ensures known { AreShortcuts bytes.now ends.new }
{
    let mut octets = [0u8; 255];
    let (used, end) = put_labels(&mut octets, bytes, ends, Bound::whole(bytes), offset)?;
    let name = Name::from_octets(alloc, &octets[..used])?;
    Ok((name, end))
}

/// The place after the name at a place, in a run to end before a bound. The sizes of pointers'
/// target names are remembered in `sizes`, which may be empty. `Err` is the first fault of the name
/// from its front. Does not allocate.
pub fn skip_name(
    bytes: &[u8],
    sizes: &mut [u8],
    bound: Bound,
    offset: usize,
) -> Result<usize, Fault>
    requires inside { bound.stop ≤ length bytes.now }
    requires known { AreSizes bytes.now sizes.old }
    ensures exact { result ≡ end_read (name_within bytes.now bound offset) }
    ensures known { AreSizes bytes.now sizes.new }
{
    let mut walk = NameCursor::new(bytes, bound, offset);
    loop {
        match step_at(bytes, walk)? {
            NameOctet::End => return Ok(walk.offset + 1),
            NameOctet::Label(len) => {
                walk = NameCursor {
                    offset: walk.offset + 1 + len,
                    used: walk.used + len + 1,
                    ..walk
                };
            }
            NameOctet::Pointer(target) => {
                size_of_name(bytes, sizes, target, walk.used)?;
                return Ok(walk.offset + 2);
            }
        }
    }
}

/// The place after the readable name at a place, found in the name's own octets: after the zero
/// octet, or after the first pointer.
#[tactic(auto, using(crate::proofs::names::EndLaws::name_begins, crate::proofs::names::EndLaws::goes_on))]
pub(crate) fn readable_name_end(bytes: &[u8], offset: usize) -> usize
    requires { IsOk (name_at bytes.now offset) }
    ensures { end_read (name_at bytes.now offset) ≡ Ok result }
{
    let mut at = offset;
    loop {
        let first = bytes[at];
        if first == 0 {
            return at + 1;
        }
        if first >= 192 {
            return at + 2;
        }
        at += first as usize + 1;
    }
}

/// The place after the name at a place, if equal to `name`, letter case aside (RFC 1035 2.3.3);
/// `None` for a different or unreadable name.
pub(crate) fn skip_same_name<A: Allocator>(
    bytes: &[u8],
    offset: usize,
    name: &Name<A>,
) -> Option<usize>
    ensures { MatchOption result (NameIs (name_at bytes.now offset) name.now
        → ⊥) (λ end. NameIs (name_at bytes.now offset) name.now × (end_read (name_at bytes.now offset) ≡ Ok end)) }
{
    let mut walk = NameCursor::new(bytes, Bound::whole(bytes), offset);
    let mut labels = name.labels();
    loop {
        match next_label(bytes, &mut [], walk).ok()? {
            NextLabel::End(end) => return labels.next().is_none().then_some(end),
            NextLabel::Label(label, after) => {
                let other = labels.next()?;
                if !is_same_label(label, other) {
                    return None;
                }
                walk = after;
            }
        }
    }
}

/// Whether octets are equal, ASCII letter case aside. Most equal labels are spelled alike, so a
/// comparison with case comes first.
fn is_same_label(a: &[u8], b: &[u8]) -> bool
    ensures { IsTrue result ↔ (map to_ascii_lowercase a.now ≡ map to_ascii_lowercase b.now) }
{
    a == b || a.eq_ignore_ascii_case(b)
}

/// The key of the name at a place. `Err` is the first fault of the name from its front. Does not
/// allocate.
pub(crate) fn key_at(bytes: &[u8], offset: usize) -> Result<NameKey, Fault>
    ensures { result ≡ keyed (name_at bytes.now offset) }
{
    let mut octets = [0u8; 255];
    let (used, _) = put_labels(&mut octets, bytes, &mut [], Bound::whole(bytes), offset)?;
    Ok(NameKey::from_octets(&octets[..used]))
}
