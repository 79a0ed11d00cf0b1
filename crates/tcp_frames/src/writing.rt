//! Frames, written.

ghost use Rattle.std.specs.Prelude.{◌≡◌, ◌/◌, ◌%◌, ◌<◌, ◌∷◌, [], length, MatchOption};
ghost use Rattle.tcp_frames.specs.Frames.{Frames};

use crate::fault::FrameFault;
use plain_values::Octets;
use std::alloc::Allocator;

/// The frame of a message: its length in two octets, high octet first, then its octets (RFC 1035
/// 4.2.2). A message of 0 octets has a frame too.
///
/// `TooLong` exactly if the message is longer than 65,535 octets; `Memory` if memory ran out.
pub fn frame<A: Allocator>(alloc: A, message: &[u8]) -> Result<Octets<A>, FrameFault>
    ensures { Frames message.now result }
{
    let Some(length) = length_octets(message.len()) else {
        return Err(FrameFault::TooLong);
    };
    let mut octets = Vec::with_capacity(alloc, 2 + message.len())?;
    octets.extend_from_slice(&length)?;
    octets.extend_from_slice(message)?;
    Ok(Octets::from_vec(octets))
}

/// The two octets of a length, if it fits.
fn length_octets(length: usize) -> Option<[u8; 2]>
    ensures { MatchOption result (65535 < length) (λ octets. (length < 65536)
        × (octets ≡ length / 256 ∷ length % 256 ∷ [])) }
{
    match u16::try_from(length) {
        Ok(length) => Some(length.to_be_bytes()),
        Err(_) => None,
    }
}
