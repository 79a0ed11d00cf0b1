//! The octets of a header (RFC 1035 4.1.1).

ghost use Rattle.std.specs.Prelude.{◌≡◌, ◌<◌, ◌≤◌, ◌++◌};
ghost use Rattle.std.specs.List.{flat_map};
ghost use Rattle.dns_message.specs.Header.{FitsBits};
ghost use Rattle.dns_message.specs.Writing.{bit, flags_of, header_octets, octets16, reply_front};

use crate::reading::Header;
use byteorder::{BigEndian, ByteOrder};

impl Header {
    /// The octets of the header, with these counts in place of its own. Opcode and response code
    /// have 4 bits, `z` has 3.
    pub fn octets(&self, counts: [u16; 4]) -> [u8; 12]
        requires { FitsBits self.now }
        ensures octets { result ≡ header_octets self.now counts }
        ensures id { self.now.id < 65536 }
    {
        octets_of(self.id, flags_of(self), counts)
    }
}

/// The first three octets of a reply: identifier, QR, opcode, RD, and the TC of `flags`, the third
/// octet of another reply (RFC 1035 4.1.1). AA is clear.
pub fn reply_front(id: u16, opcode: u8, flags: u8, rd: bool) -> [u8; 3]
    requires { opcode < 16 }
    ensures { result ≡ reply_front id opcode flags rd }
{
    let cut = flags / 2 % 2;
    let mut front = [0; 3];
    BigEndian::write_u16(&mut front, id);
    front[2] = 0x80 + 8 * opcode + 2 * cut + u8::from(rd);
    front
}

/// The octets of an identifier, flags and counts.
fn octets_of(id: u16, flags: u16, counts: [u16; 4]) -> [u8; 12]
    ensures { result ≡ octets16 id ++ octets16 flags ++ flat_map octets16 counts }
{
    let mut octets = [0; 12];
    BigEndian::write_u16(&mut octets, id);
    BigEndian::write_u16(&mut octets[2..], flags);
    BigEndian::write_u16_into(&counts, &mut octets[4..]);
    octets
}

/// The flags, the opcode and the response code as one number (RFC 1035 4.1.1).
fn flags_of(header: &Header) -> u16
    requires { FitsBits header.now }
    ensures { result ≡ flags_of header.now }
{
    bit(header.qr, 0x8000)
        + header.opcode as u16 * 0x800
        + bit(header.aa, 0x400)
        + bit(header.tc, 0x200)
        + bit(header.rd, 0x100)
        + bit(header.ra, 0x80)
        + header.z as u16 * 0x10
        + header.rcode as u16
}

/// The weight, if the bit is set.
fn bit(set: bool, weight: u16) -> u16
    ensures is { result ≡ bit set weight }
    ensures most { result ≤ weight }
{
    if set { weight } else { 0 }
}
