//! Frames, read from a stream.

ghost use Rattle.std.specs.Prelude.{◌≡◌, ◌+◌, ◌≤◌, [], length, drop, vec_len, MatchOption, IfOk, IsSome};
ghost use Rattle.tcp_frames.specs.Frames.{Feeds, Finds, IsUnfinished, Leads, Takes};

use plain_values::Octets;
use std::alloc::{AllocError, Allocator, Global};
use std::marker::Model;

/// The octets of a TCP stream that were not yet taken as messages. Contracts see the list of these
/// octets.
#[derive(Drop)]
pub struct FrameReader<A: Allocator = Global> {
    /// The octets since the rest was last moved to the front.
    octets: Vec<u8, A>,
    /// The number of octets in memory that were taken: at most half, so that the room is used
    /// again.
    taken: usize,
    alloc: A,
}

impl<A: Allocator> Model for FrameReader<A> {
    ghost use Rattle.std.specs.Prelude.{List, ℕ, drop, ◌+◌, ◌≤◌, vec_len};

    ghost Value = { List ℕ };

    ghost view = { λ r. drop r.taken r.octets.items };

    ghost invariant = { λ r. r.taken + r.taken ≤ vec_len r.octets };
}

impl<A: Allocator + Copy> FrameReader<A> {
    /// A reader without octets; later allocations come from `alloc`.
    pub fn new(alloc: A) -> FrameReader<A>
        ensures { result ≡ [] }
    {
        FrameReader {
            octets: Vec::new(alloc),
            taken: 0,
            alloc,
        }
    }

    /// Appends a piece of the stream. A piece may be cut anywhere, and may be empty.
    pub fn feed(&mut self, piece: &[u8]) -> Result<(), AllocError>
        ensures { Feeds self.old piece.now result self.new }
    {
        self.octets.extend_from_slice(piece)?;
        Ok(())
    }

    /// Takes the first frame out and returns its message. `None` exactly if no whole frame is
    /// there; then nothing is taken. A frame of length 0 is a message of 0 octets.
    ///
    /// `Err` exactly if a whole frame is there and memory for its message ran out; then nothing is
    /// taken.
    pub fn take(&mut self) -> Result<Option<Octets<A>>, AllocError>
        ensures { Takes self.old result self.new }
    {
        let Some(message) = self.first_message()? else {
            return Ok(None);
        };
        let taken = self.taken + 2 + message.as_slice().len();
        self.taken = move_to_front(&mut self.octets, taken);
        Ok(Some(message))
    }

    /// A copy of the first message.
    fn first_message(&self) -> Result<Option<Octets<A>>, AllocError>
        ensures { Finds self.now result }
    {
        match message_of_first_frame(&self.octets[self.taken..]) {
            Some(message) => Ok(Some(Octets::copied(self.alloc, message)?)),
            None => Ok(None),
        }
    }
}

/// The message of the first frame of a stream, if the frame is whole.
fn message_of_first_frame(stream: &[u8]) -> Option<&[u8]>
    ensures { MatchOption result (IsUnfinished stream.now) (λ message. Leads message.now
        (drop (2 + length message.now) stream.now) stream.now) }
{
    let [high, low, more @ ..] = stream else {
        return None;
    };
    more.get(..usize::from(*high) * 256 + usize::from(*low))
}

/// Drops the first `taken` octets; returns how many of them are still in memory. The rest moves to
/// the front only if it is not longer than the dropped octets, so each dropped octet pays for one
/// moved octet.
fn move_to_front<A: Allocator>(octets: &mut Vec<u8, A>, taken: usize) -> usize
    requires { taken ≤ vec_len octets.old }
    ensures rest { drop result octets.new.items ≡ drop taken octets.old.items }
    ensures few { result + result ≤ vec_len octets.new }
{
    let rest = octets.len() - taken;
    if taken < rest {
        return taken;
    }
    octets.copy_within(taken.., 0);
    octets.truncate(rest);
    0
}
