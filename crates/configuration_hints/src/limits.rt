//! Hints for the value of a limit.

use crate::hint::Hint;

/// The hint for the limit `key` if its value is no bare number: the counted thing. If the key says
/// so itself, the hint is `other`.
pub(crate) fn hint_for_limit(key: &[u8], other: Hint) -> Hint {
    if key == b"cache".as_slice() {
        Hint::Counts("record sets, not octets")
    } else if key == b"ask_ms".as_slice() || key == b"deadline_ms".as_slice() {
        Hint::Counts("milliseconds")
    } else if key == b"stale_s".as_slice() {
        Hint::Counts("seconds")
    } else {
        other
    }
}
