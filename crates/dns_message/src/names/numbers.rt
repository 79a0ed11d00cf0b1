//! Numbers at a place of a message, the high octet first: RFC 1035 2.3.2.

ghost use Rattle.std.specs.Prelude.{◌≡◌, ◌≤◌, ◌+◌, length};
ghost use Rattle.dns_message.specs.Numbers.{number16, number32};

use crate::names::walk::part;
use byteorder::{BigEndian, ByteOrder};

/// The number of 16 bits at a place within the octets.
pub(crate) fn number16(bytes: &[u8], offset: usize) -> u16
    requires { offset + 2 ≤ length bytes.now }
    ensures { result ≡ number16 bytes.now offset }
{
    BigEndian::read_u16(part(bytes, offset, 2))
}

/// The number of 32 bits at a place within the octets.
pub(crate) fn number32(bytes: &[u8], offset: usize) -> u32
    requires { offset + 4 ≤ length bytes.now }
    ensures { result ≡ number32 bytes.now offset }
{
    BigEndian::read_u32(part(bytes, offset, 4))
}
