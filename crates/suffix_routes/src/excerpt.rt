//! The first octets of a text of the configuration, for a fault.

ghost use Rattle.std.specs.Prelude.{◌≡◌, ◌≤◌, length};
ghost use Rattle.suffix_routes.specs.Excerpts.{excerpt, padded};

use std::marker::Model;
use std::{fmt, str};

/// The first octets of a text, 64 at most, so that a fault owns no memory. Contracts see the list
/// of these octets.
#[derive(Clone, Copy, PartialEq, Eq)]
#[tactic(auto, using(crate::specs::ExcerptLaws::octets_back, crate::specs::ExcerptLaws::len_back))]
pub struct Excerpt {
    octets: [u8; 64],
    len: u8,
}

impl Model for Excerpt {
    ghost use Rattle.std.specs.Prelude.{List, ℕ, take};
    ghost use Rattle.suffix_routes.specs.Excerpts.{IsExcerpt, kept_octets, kept_len};

    ghost Value = { List ℕ };

    ghost view = { λ e. take e.len e.octets };

    ghost invariant = { λ e. IsExcerpt e.octets e.len };

    ghost inverse = { λ text. record { octets = kept_octets text; len = kept_len text } };

    ghost use Rattle.suffix_routes.specs.ExcerptLaws.{octets_back, len_back};
    ghost use Rattle.std.proofs.Common.{◌≡◌, ap};

    ghost inverse_ok = { λ e h. Prim.rw (octets_back e.octets e.len h, len_back e.octets e.len h) (λ _. e) };
}

impl Excerpt {
    /// The first 64 octets of a text, the whole of a shorter text.
    pub fn of(text: &str) -> Excerpt
        ensures { result ≡ excerpt text.now }
    {
        let octets = text.as_bytes();
        if octets.len() > 64 {
            kept(&octets[..64])
        } else {
            kept(octets)
        }
    }

    /// The octets. A text with several octets a character may be cut inside a character.
    pub fn octets(&self) -> &[u8]
        ensures { result.now ≡ self.now }
    {
        &self.octets[..usize::from(self.len)]
    }
}

/// The text between quotation marks, with unprintable characters escaped. Of a text of 64 octets or
/// more, the whole characters in its first 63 octets are shown, and two dots after the quotation
/// marks.
impl fmt::Display for Excerpt {
    fn fmt<W: fmt::Write>(&self, f: &mut fmt::Formatter<W>) -> fmt::Result {
        let octets = self.octets();
        let shown = characters(octets.get(..63).unwrap_or(octets));
        let dots = if octets.len() < 64 { "" } else { ".." };
        write!(f, "{shown:?}{dots}")
    }
}

impl fmt::Debug for Excerpt {
    fn fmt<W: fmt::Write>(&self, f: &mut fmt::Formatter<W>) -> fmt::Result {
        fmt::Display::fmt(self, f)
    }
}

/// The excerpt with these octets.
fn kept(octets: &[u8]) -> Excerpt
    requires { length octets.now ≤ 64 }
    ensures { result ≡ octets.now }
{
    Excerpt {
        octets: with_zeros(octets),
        len: octets.len() as u8,
    }
}

fn with_zeros(octets: &[u8]) -> [u8; 64]
    requires { length octets.now ≤ 64 }
    ensures { result ≡ padded octets.now }
{
    let mut all = [0u8; 64];
    for (place, octet) in octets.iter().enumerate() {
        all[place] = *octet;
    }
    all
}

/// The whole characters at the front.
fn characters(octets: &[u8]) -> &str {
    match str::from_utf8(octets) {
        Ok(text) => text,
        Err(error) => str::from_utf8(&octets[..error.valid_up_to()]).unwrap_or(""),
    }
}
