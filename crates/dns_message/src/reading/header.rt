//! The header of a message.

ghost use Rattle.std.specs.Prelude.{◌≡◌, ◌<◌, ◌≤◌, ◌/◌, ◌%◌, IfSome};
ghost use Rattle.dns_message.specs.Header.{FitsBits, flag, header_of};

use crate::names::number16;

/// The first 12 octets of a message (RFC 1035 4.1.1).
#[derive(Clone, Copy, Debug, PartialEq, Eq)]
pub struct Header {
    /// The identifier, which ties a reply to its question.
    pub id: u16,
    /// Set in replies.
    pub qr: bool,
    /// 4 bits: the kind of query, 0 for a standard query.
    pub opcode: u8,
    /// The server is an authority for the name.
    pub aa: bool,
    /// The message was truncated.
    pub tc: bool,
    /// Recursion is desired.
    pub rd: bool,
    /// Recursion is available.
    pub ra: bool,
    /// 3 bits, reserved.
    pub z: u8,
    /// 4 bits: the response code, 0 for no error.
    pub rcode: u8,
    /// The numbers of questions, answers, authority records and additional records.
    pub counts: [u16; 4],
}

impl Header {
    /// The header at the front of the octets: RFC 1035 4.1.1. `None` for fewer than 12 octets.
    #[tactic(auto, unfolding(crate::specs::Header::header_of))]
    pub fn read(bytes: &[u8]) -> Option<Header>
        ensures exact { result ≡ header_of bytes.now }
        ensures fits { IfSome result FitsBits }
    {
        if bytes.len() < 12 {
            return None;
        }
        let flags = number16(bytes, 2);
        Some(Header {
            id: number16(bytes, 0),
            qr: is_set(flags, 0x8000),
            opcode: bits(flags, 0x800, 16),
            aa: is_set(flags, 0x400),
            tc: is_set(flags, 0x200),
            rd: is_set(flags, 0x100),
            ra: is_set(flags, 0x80),
            z: bits(flags, 0x10, 8),
            rcode: bits(flags, 1, 16),
            counts: [
                number16(bytes, 4),
                number16(bytes, 6),
                number16(bytes, 8),
                number16(bytes, 10),
            ],
        })
    }
}

/// Whether the bit of this weight is set.
fn is_set(flags: u16, weight: u16) -> bool
    requires { 0 < weight }
    ensures { result ≡ flag flags weight }
{
    flags / weight % 2 >= 1
}

/// The number of the bits from this weight on, below a limit of 16 at most.
fn bits(flags: u16, weight: u16, limit: u16) -> u8
    requires weight { 0 < weight }
    requires limit { 0 < limit }
    requires most { limit ≤ 16 }
    ensures { result ≡ flags / weight % limit }
{
    (flags / weight % limit) as u8
}
