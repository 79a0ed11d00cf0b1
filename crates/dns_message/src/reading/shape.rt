//! The types of records with names in their data, and the layout of the data.

ghost use Rattle.std.specs.Prelude.{◌≡◌};
ghost use Rattle.dns_message.specs.Shapes.{shape_of};

use Part::{Name, Number16, SoaNumbers, Text};
use std::marker::Model;

/// A part of a record's data.
#[derive(Clone, Copy)]
pub(crate) enum Part {
    /// A domain name.
    Name,
    /// Two octets.
    Number16,
    /// The numbers of an SOA after its names: SERIAL, REFRESH, RETRY, EXPIRE, MINIMUM, of four
    /// octets each (RFC 1035 3.3.13).
    SoaNumbers,
    /// A character-string: a length octet and as many octets (RFC 1035 3.3).
    Text,
}

/// The layout of the data of a type.
#[derive(Drop)]
pub(crate) struct Shape {
    /// The parts from left to right; they fill the data.
    pub parts: &'static [Part],
    /// The names in the data may be written with pointers (RFC 1035 3.3, RFC 3597 4).
    pub compressed: bool,
}

impl Model for Shape {
    ghost use Rattle.dns_message.specs.Shapes.{Shape};

    ghost Value = { Shape };

    ghost view = { λ s. record { parts = s.parts.now; compressed = s.compressed } };
}

/// The shape of a type's data. `None`: opaque octets (RFC 3597).
#[tactic(auto, unfolding(crate::specs::Shapes::shape_of))]
pub(crate) fn shape_of(kind: u16) -> Option<Shape>
    ensures { result ≡ shape_of kind }
{
    let (parts, compressed): (&'static [Part], bool) = match kind {
        // NS, MD, MF, CNAME, MB, MG, MR, PTR
        2 | 3 | 4 | 5 | 7 | 8 | 9 | 12 => (&[Name], true),
        // SOA: MNAME, RNAME, and the numbers
        6 => (&[Name, Name, SoaNumbers], true),
        // MINFO
        14 => (&[Name, Name], true),
        // MX: preference, exchange
        15 => (&[Number16, Name], true),
        // RP
        17 => (&[Name, Name], false),
        // AFSDB, RT
        18 | 21 => (&[Number16, Name], false),
        // PX
        26 => (&[Number16, Name, Name], false),
        // SRV: priority, weight, port, target
        33 => (&[Number16, Number16, Number16, Name], false),
        // NAPTR: order, preference, flags, services, regular expression, replacement
        35 => (&[Number16, Number16, Text, Text, Text, Name], false),
        _ => return None,
    };
    Some(Shape { parts, compressed })
}
