//! Peers: servers and clients by their address.

ghost use Rattle.std.specs.Prelude.{◌≡◌, ◌≤◌, ◌==◌, true, Some, IfSome, MatchOption, option_map, position};
ghost use Rattle.std.specs.Char.{is_ascii_digit};
ghost use Rattle.std.specs.List.{list_all};
ghost use Rattle.suffix_routes.specs.Peers.{cut, is_decimal, decimal_value, up_to, number_in, peer_of, peer_text};
ghost use Rattle.suffix_routes.specs.Peers.{Writes};

use std::fmt;

/// An IPv4 address and a port.
#[derive(Clone, Copy, Debug, PartialEq, Eq, PartialOrd, Ord, Hash)]
pub struct Peer {
    /// The four octets of the address, from left to right.
    pub ip: [u8; 4],
    /// The UDP or TCP port.
    pub port: u16,
}

impl Peer {
    /// The peer of a text: four decimal numbers from 0 to 255 parted by dots, a colon, and a port
    /// from 1 to 65535, without leading zeros except in `0` itself. `None` for any other text.
    #[tactic(auto, using(crate::proofs::PeerLaws::told_peer))]
    pub fn from_text(text: &str) -> Option<Peer>
        ensures exact { MatchOption result ((peer : Peer) → Writes text.now peer → ⊥) (λ peer. Writes text.now peer) }
        ensures computed { result ≡ peer_of text.now }
    {
        read_peer(text.as_bytes())
    }
}

/// The peer of the text.
#[tactic(auto, unfolding(crate::specs::Peers::peer_of))]
fn read_peer(text: &[u8]) -> Option<Peer>
    ensures { result ≡ peer_of text.now }
{
    let (first, rest) = cut(text, b'.')?;
    let (second, rest) = cut(rest, b'.')?;
    let (third, rest) = cut(rest, b'.')?;
    let (fourth, port) = cut(rest, b':')?;
    let ip = [octet(first)?, octet(second)?, octet(third)?, octet(fourth)?];
    let port = number(port, 1, 65_535)? as u16;
    Some(Peer { ip, port })
}

/// The octets before the first separator, and the octets after; `None` without a separator.
fn cut(text: &[u8], separator: u8) -> Option<(&[u8], &[u8])>
    ensures { option_map (λ x. (x.0.now, x.1.now)) result ≡ cut separator text.now }
{
    let at = first_place(text, separator)?;
    Some((&text[..at], &text[at + 1..]))
}

/// The place of the first separator.
fn first_place(text: &[u8], separator: u8) -> Option<usize>
    ensures { result ≡ position (λ c. c == separator) text.now }
{
    text.iter().position(|octet| *octet == separator)
}

/// An octet of an address.
fn octet(text: &[u8]) -> Option<u8>
    ensures { result ≡ number_in 0 255 text.now }
{
    Some(number(text, 0, 255)? as u8)
}

/// The decimal number, if without a leading zero and from `low` to `high`.
#[tactic(auto, unfolding(crate::specs::Peers::number_in))]
fn number(text: &[u8], low: u32, high: u32) -> Option<u32>
    requires { high ≤ 65535 }
    ensures value { result ≡ number_in low high text.now }
    ensures range { IfSome result (λ n. n ≤ high) }
{
    if !is_decimal(text) {
        return None;
    }
    let value = value_up_to(text, high)?;
    if value < low { None } else { Some(value) }
}

/// Whether the text is digits alone, at least one, without a leading zero.
fn is_decimal(text: &[u8]) -> bool
    ensures { result ≡ is_decimal text.now }
{
    if text.is_empty() || (text.len() > 1 && text[0] == b'0') {
        return false;
    }
    has_digits(text)
}

/// Whether the text has digits alone.
fn has_digits(text: &[u8]) -> bool
    ensures { result ≡ list_all is_ascii_digit text.now }
{
    text.iter().all(|octet| octet.is_ascii_digit())
}

/// The value of the digits, if at most `high`.
fn value_up_to(digits: &[u8], high: u32) -> Option<u32>
    requires digits { list_all is_ascii_digit digits.now ≡ true }
    requires small { high ≤ 65535 }
    ensures { result ≡ up_to high (decimal_value digits.now) }
{
    let mut value = 0u32;
    for digit in digits {
        value = 10 * value + u32::from(*digit - b'0');
        if value > high {
            return None;
        }
    }
    Some(value)
}

/// The form `a.b.c.d:port`, all numbers in decimal.
impl fmt::Display for Peer {
    ghost output = { λ p. Some (peer_text p) };

    fn fmt<W: fmt::Write>(&self, f: &mut fmt::Formatter<W>) -> fmt::Result {
        let [a, b, c, d] = self.ip;
        write!(f, "{a}.{b}.{c}.{d}:{}", self.port)
    }
}
