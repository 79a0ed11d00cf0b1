//! The number of whole messages from a client.

ghost use Rattle.std.specs.Prelude.{◌≡◌, ℕ, ◌<◌, ◌≤◌, List, length, take};
ghost use Rattle.tcp_frames.specs.Counting.{Counts, Leaves, Stands, ended};

use std::num::NonZeroU16;

/// The position of a stream within its frames. A frame is a length of two octets, high octet first,
/// and a message of this length (RFC 1035 4.2.2).
#[derive(Clone, Copy)]
pub enum Within {
    /// Between two frames.
    Nothing,
    /// After the high octet of a length.
    Length(u8),
    /// Before the last octets of a message, of this number.
    Message(NonZeroU16),
}

impl Within {
    /// Advances by a piece of the stream; returns the number of frames that end in the piece.
    pub fn count(&mut self, piece: &[u8]) -> usize
        ensures { (rest : List ℕ) → Stands self.old rest → Counts rest piece.now result self.new }
    {
        let mut ended = 0;
        let mut rest = piece;
        while !rest.is_empty() {
            let count = self.advance(rest);
            rest = &rest[count..];
            ended += self.ended();
        }
        ended
    }

    /// Goes on by the beginning of a piece, at most to the end of a frame; returns the number of
    /// octets.
    fn advance(&mut self, piece: &[u8]) -> usize
        requires { 0 < length piece.now }
        ensures taken { (0 < result) × (result ≤ length piece.now) }
        ensures counts { (rest : List ℕ) → Stands self.old rest
            → Counts rest (take result piece.now) (ended self.new) self.new }
    {
        match *self {
            Within::Nothing => {
                *self = Within::Length(piece[0]);
                1
            }
            Within::Length(high) => {
                *self = before(u16::from_be_bytes([high, piece[0]]));
                1
            }
            Within::Message(left) => {
                let count = usize::from(left.get()).min(piece.len());
                *self = before(left.get() - count as u16);
                count
            }
        }
    }

    /// The number of frames that end exactly at this position.
    fn ended(self) -> usize
        ensures { result ≡ ended self }
    {
        match self {
            Within::Nothing => 1,
            Within::Length(_) | Within::Message(_) => 0,
        }
    }
}

/// The position after a whole message, or before the rest of an unfinished message.
fn before(left: u16) -> Within
    ensures { Leaves left result }
{
    match NonZeroU16::new(left) {
        Some(left) => Within::Message(left),
        None => Within::Nothing,
    }
}
