//! The sizes of pointers' target names, in octets, remembered.
//!
//! `sizes` has a number for each of the first places of a message: the octets of the name from
//! here, with the final zero, or 0 if unknown. So the target of many pointers is walked once; with
//! an empty slice, by each pointer.

ghost use Rattle.std.specs.Prelude.{◌≡◌, ◌≤◌, ◌<◌, Ok, IfSome, slice_index};
ghost use Rattle.dns_message.specs.Sizes.{AreSizes, size_after};

use crate::names::fault::Fault;
use crate::names::walk::{Bound, NameCursor, NameOctet, step_at};

/// The octets of the name at a place, after labels of `used` octets. Over all calls with one
/// `sizes` each place is remembered once, and a known place is not walked again.
pub(crate) fn size_of_name(
    bytes: &[u8],
    sizes: &mut [u8],
    start: usize,
    used: usize,
) -> Result<usize, Fault>
    requires room { used ≤ 254 }
    requires known { AreSizes bytes.now sizes.old }
    ensures exact { result ≡ size_after bytes.now start used }
    ensures known { AreSizes bytes.now sizes.new }
{
    if let Some(size) = known_size(sizes, start) {
        if used + size > 255 {
            return Err(Fault::NameLong);
        }
        return Ok(size);
    }
    let size = measure(bytes, sizes, start, used)?;
    remember(bytes, sizes, start, size);
    Ok(size)
}

/// The octets of the name at a place, after labels of `used` octets. The walk ends at a pointer to
/// a known place.
fn measure(bytes: &[u8], sizes: &[u8], start: usize, used: usize) -> Result<usize, Fault>
    requires room { used ≤ 254 }
    requires known { AreSizes bytes.now sizes.now }
    ensures { result ≡ size_after bytes.now start used }
{
    let mut walk = NameCursor::after(bytes, start, used);
    loop {
        match step_at(bytes, walk)? {
            NameOctet::End => return Ok(walk.used + 1 - used),
            NameOctet::Label(len) => {
                walk = NameCursor {
                    offset: walk.offset + 1 + len,
                    used: walk.used + len + 1,
                    ..walk
                };
            }
            NameOctet::Pointer(target) => {
                if let Some(size) = known_size(sizes, target) {
                    if walk.used + size > 255 {
                        return Err(Fault::NameLong);
                    }
                    return Ok(walk.used + size - used);
                }
                walk = NameCursor::after(bytes, target, walk.used);
            }
        }
    }
}

/// The remembered size of the name at a place.
fn known_size(sizes: &[u8], place: usize) -> Option<usize>
    ensures { IfSome result (λ size. (0 < size) × (size ≡ slice_index sizes.now place)) }
{
    if place < sizes.len() && sizes[place] > 0 {
        return Some(sizes[place] as usize);
    }
    None
}

/// Remembers the octets of the name at a place, and of the names on the way to its end, up to the
/// first known.
fn remember(bytes: &[u8], sizes: &mut [u8], start: usize, size: usize)
    requires known { AreSizes bytes.now sizes.old }
    requires read { size_after bytes.now start 0 ≡ Ok size }
    ensures { AreSizes bytes.now sizes.new }
{
    let mut walk = NameCursor::after(bytes, start, 0);
    while walk.offset < sizes.len() && sizes[walk.offset] == 0 {
        let left = (size - walk.used) as u8;
        sizes[walk.offset] = left;
        match step_at(bytes, walk) {
            Ok(NameOctet::Label(len)) => {
                walk = NameCursor {
                    offset: walk.offset + 1 + len,
                    used: walk.used + len + 1,
                    ..walk
                };
            }
            Ok(NameOctet::Pointer(target)) => walk = NameCursor::after(bytes, target, walk.used),
            _ => return,
        }
    }
}
