//! The connections of asks.

ghost use Rattle.std.specs.IoError.{error_kind};
ghost use Rattle.std.specs.Prelude.{◌≡◌, IfErr, IfOk};
ghost use Rattle.std.specs.declared.io.ErrorKind.TheVariants.{OutOfMemory};
ghost use Rattle.tcp_frames.specs.Frames.{framed};
ghost use Rattle.stream_connections.specs.Queries.{IsWithin, ServesQuery};
ghost use Rattle.stream_connections.specs.Streams.{HearsAfter};

use crate::answers::{Heard, heard_by};
use crate::streams::offer;
use std::alloc::{Allocator, Global};
use std::io;
use std::io::ErrorKind;
use suffix_routes::Peer;
use system_calls::{Calls, Stream};
use tcp_frames::{Unsent, frame};

/// The octets of a query over TCP: its length in two octets, then the query (RFC 1035 4.2.2). `Err`
/// of the kind `OutOfMemory` if memory ran out, or the query is longer than 65,535 octets.
pub fn unsent_query<A: Allocator + Copy>(alloc: A, query: &[u8]) -> io::Result<Unsent<A>>
    ensures made { IfOk result (λ unsent. unsent
        ≡ record { left = framed query.now; taken = 0 }) }
    ensures err { IfErr result (λ error. error_kind error ≡ OutOfMemory) }
{
    let Ok(framed) = frame(alloc, query) else {
        return Err(io::Error::from(ErrorKind::OutOfMemory));
    };
    let mut unsent = Unsent::new(alloc);
    unsent.push(framed)?;
    Ok(unsent)
}

/// A connection to a server, with the untaken rest of the query.
#[derive(Drop)]
pub struct ServerStream<A: Allocator = Global> {
    stream: Stream,
    pub(crate) server: Peer,
    unsent: Unsent<A>,
}

impl<A: Allocator + Copy> ServerStream<A> {
    /// Makes a connection begun to this server, with these octets to take.
    pub fn new(stream: Stream, server: Peer, unsent: Unsent<A>) -> ServerStream<A>
        ensures stream { result.stream ≡ stream }
        ensures server { result.server ≡ server }
        ensures unsent { result.unsent ≡ unsent }
    {
        ServerStream {
            stream,
            server,
            unsent,
        }
    }

    /// Sends as many octets of the query as the server takes, and reads into the buffer.
    pub(crate) fn serve(&mut self, calls: &mut Calls, buffer: &mut [u8]) -> Heard
        ensures bound { IsWithin result buffer.new }
        ensures serves { ServesQuery result buffer.new calls.old calls.new self.old self.new }
    {
        let sent = offer(calls, &mut self.stream, &mut self.unsent);
        self.receive_after(sent, calls, buffer)
    }

    /// Reads into the buffer, unless the send before failed.
    fn receive_after(
        &mut self,
        sent: io::Result<usize>,
        calls: &mut Calls,
        buffer: &mut [u8],
    ) -> Heard
        ensures bound { IsWithin result buffer.new }
        ensures hears { HearsAfter sent self.old.stream buffer.new result calls.old calls.new }
        ensures same { self.new ≡ self.old }
    {
        match sent {
            Ok(_) => heard_by(calls.read(&mut self.stream, buffer)),
            Err(_) => Heard::Failed,
        }
    }
}
