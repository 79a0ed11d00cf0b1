//! The ending of a name: a number shared by the names above, unless theirs is 0.

ghost use Rattle.std.specs.Prelude.{◌≡◌, ◌<◌, ◌+◌, ◌%◌};
ghost use Rattle.std.specs.Int.{w64, from_be_bytes};
ghost use Rattle.dns_name.specs.Labels.{labels_of, lowered, IsLaidOut};
ghost use Rattle.record_cache.specs.Entries.{ending};

use dns_name::NameKey;

/// How many octets an ending is made of.
const LAST: usize = 8;

/// The ending of a key's name, a number for `Cache::may_deny` and `Cache::may_have_alias`: 0 for
/// fewer than eight octets, otherwise the last eight as a number modulo 251, and 1.
pub fn key_ending(key: &NameKey) -> usize
    ensures ending { result ≡ ending key.now }
    ensures few { result < 256 }
{
    match key.octets().last_chunk::<LAST>() {
        None => 0,
        Some(last) => number_of(*last),
    }
}

/// The ending of the name with these octets, in the form of `Name::octets`, letter case aside.
pub fn ending(octets: &[u8]) -> usize
    requires { IsLaidOut octets.now }
    ensures ending { result ≡ ending (lowered (labels_of octets.now)) }
    ensures few { result < 256 }
{
    match octets.last_chunk::<LAST>() {
        None => 0,
        Some(last) => {
            let mut last = *last;
            last.make_ascii_lowercase();
            number_of(last)
        }
    }
}

/// The ending of names with these last octets.
fn number_of(last: [u8; LAST]) -> usize
    ensures { result ≡ from_be_bytes w64 last % 251 + 1 }
{
    (u64::from_be_bytes(last) % 251) as usize + 1
}
