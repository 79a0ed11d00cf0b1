//! The labels of a name, put in order.

ghost use Rattle.std.specs.Prelude.{◌≡◌, ◌≤◌, Err, length};
ghost use Rattle.dns_message.specs.Shortcuts.{AreShortcuts};
ghost use Rattle.dns_message.specs.Names.{name_within};
ghost use Rattle.dns_message.specs.Runs.{ArePut};
ghost use Rattle.dns_message.specs.declared.names.fault.Fault.TheVariants.{Memory};

use crate::names::fault::Fault;
use crate::names::shortcuts::resolve;
use crate::names::walk::{Bound, NameCursor, NameOctet, part, step_at};

/// Puts the labels of the name at a place, in a run to end before a bound, at the front of
/// `octets`, each after its length, without the final zero. Returns the number of octets put, at
/// most 254, and the place after the name. The targets of pointers are remembered in `ends`, which
/// may be empty. Does not allocate.
///
/// `Err` is the first fault of the name from its front.
pub(crate) fn put_labels(
    octets: &mut [u8; 255],
    bytes: &[u8],
    ends: &mut [u16],
    bound: Bound,
    offset: usize,
) -> Result<(usize, usize), Fault>
    requires inside { bound.stop ≤ length bytes.now }
    requires known { AreShortcuts bytes.now ends.old }
    ensures exact { ArePut octets.new result (name_within bytes.now bound offset) }
    ensures known { AreShortcuts bytes.now ends.new }
    ensures memory { result ≡ Err Memory → bound.beyond ≡ Memory }
{
    let mut walk = NameCursor::new(bytes, bound, offset);
    loop {
        match step_at(bytes, walk)? {
            NameOctet::End => return Ok((walk.used, walk.end.unwrap_or(walk.offset + 1))),
            NameOctet::Label(len) => {
                let used = walk.used + len + 1;
                octets[walk.used..used].copy_from_slice(part(bytes, walk.offset, len + 1));
                walk = NameCursor {
                    offset: walk.offset + 1 + len,
                    used,
                    ..walk
                };
            }
            NameOctet::Pointer(target) => {
                let start = resolve(bytes, ends, target);
                walk = NameCursor {
                    offset: start,
                    run: start,
                    used: walk.used,
                    bound: Bound::whole(bytes),
                    end: Some(walk.end.unwrap_or(walk.offset + 2)),
                };
            }
        }
    }
}
