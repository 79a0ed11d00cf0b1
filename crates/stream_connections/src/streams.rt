//! A write to a stream, by one call.

ghost use Rattle.std.specs.Prelude.{◌≡◌};
ghost use Rattle.stream_connections.specs.Streams.{Offers};

use crate::answers::taken_by;
use std::alloc::Allocator;
use std::io;
use system_calls::{Calls, Stream};
use tcp_frames::Unsent;

/// Offers the octets left to the stream once, if any. Returns the number of those taken: 0 if the
/// write would block. `Err` if the stream takes none any more.
pub(crate) fn offer<A: Allocator + Copy>(
    calls: &mut Calls,
    stream: &mut Stream,
    unsent: &mut Unsent<A>,
) -> io::Result<usize>
    ensures offers { Offers stream.old unsent.old result unsent.new calls.old calls.new }
    ensures same { stream.new ≡ stream.old }
{
    if unsent.is_empty() {
        return Ok(0);
    }
    let answer = calls.write(stream, unsent.octets());
    if let Ok(count) = &answer {
        unsent.leave_out(*count);
    }
    taken_by(answer)
}
