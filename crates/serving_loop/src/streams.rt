//! The frame readers of the streams, by connection, and their messages.

ghost use Rattle.std.specs.Prelude.{◌≡◌, ◌==◌, ◌++◌, ℕ, [], if◌then◌else◌, map, OnOk};
ghost use Rattle.tcp_frames.specs.Frames.{frames_of, unfinished_of};
ghost use Rattle.step_values.specs.Values.{event_of};
ghost use Rattle.serving_loop.specs.Serving.{standing};
ghost use Rattle.serving_loop.specs.Streams.{left_on, message_from, ServesFrames, ServesEvents};

use crate::looping::Loop;
use plain_values::Octets;
use std::alloc::{AllocError, Allocator};
use std::collections::BTreeMap;
use std::hash::BuildHasher;
use step_values::{Client, Event, Path};
use suffix_routes::Peer;
use tcp_frames::FrameReader;
use wires::Wire;

/// The octets of streams after their last whole frames, by the number of the connection.
#[derive(Drop)]
pub(crate) struct Streams<A: Allocator> {
    pub alloc: A,
    /// Of connections opened by clients.
    pub clients: BTreeMap<u64, FrameReader<A>, A>,
    /// Of connections of asks.
    pub servers: BTreeMap<u64, FrameReader<A>, A>,
}

/// The sender of the messages on a stream.
#[derive(Clone, Copy, Drop)]
pub(crate) enum Sender {
    FromClient(u64),
    FromServer(u64, Peer),
}

/// A piece of a stream.
#[derive(Drop)]
pub(crate) struct Piece<A: Allocator> {
    pub sender: Sender,
    pub bytes: Octets<A>,
}

/// Takes out the reader of a connection; a new reader if there is none.
pub(crate) fn take_out<A: Allocator + Copy>(
    alloc: A,
    readers: &mut BTreeMap<u64, FrameReader<A>, A>,
    conn: u64,
) -> FrameReader<A>
    ensures reader { result ≡ left_on readers.old conn }
    ensures others { (other : ℕ) → left_on readers.new other
        ≡ (if other == conn then [] else left_on readers.old other) }
{
    match readers.remove(&conn) {
        Some(reader) => reader,
        None => FrameReader::new(alloc),
    }
}

/// Puts the reader of a connection in.
pub(crate) fn put_in<A: Allocator + Copy>(
    readers: &mut BTreeMap<u64, FrameReader<A>, A>,
    conn: u64,
    reader: FrameReader<A>,
) -> Result<(), AllocError>
    ensures { OnOk result ((other : ℕ) → left_on readers.new other
        ≡ (if other == conn then reader else left_on readers.old other)) }
{
    readers.insert(conn, reader)?;
    Ok(())
}

impl<H: BuildHasher + Drop, A: Allocator + Copy, W: Wire<A>> Loop<'_, '_, H, A, W> {
    /// Takes a piece of a stream: serves each frame that ends in the piece. `Err` if memory ran out
    /// for the octets of the reader or for a frame.
    pub(crate) fn serve_piece(
        &mut self,
        reader: &mut FrameReader<A>,
        piece: Piece<A>,
    ) -> Result<(), AllocError>
        ensures serves { ServesEvents (map (message_from piece.sender) (frames_of (reader.old ++ piece.bytes)))
            result (standing W.report W.fault_count self.old) (standing W.report W.fault_count self.new) }
        ensures reader { OnOk result (reader.new ≡ unfinished_of (reader.old ++ piece.bytes)) }
    {
        reader.feed(piece.bytes.as_slice())?;
        self.serve_frames(reader, piece.sender)
    }

    /// Serves each whole frame in the reader. `Err` if memory for a message ran out.
    fn serve_frames(
        &mut self,
        reader: &mut FrameReader<A>,
        sender: Sender,
    ) -> Result<(), AllocError>
        ensures { ServesFrames sender reader.old result reader.new (standing W.report W.fault_count self.old)
            (standing W.report W.fault_count self.new) }
    {
        while let Some(message) = reader.take()? {
            self.hand_on(&sender.event(message));
        }
        Ok(())
    }
}

impl Sender {
    /// Returns the event of a message.
    fn event<A: Allocator>(self, bytes: Octets<A>) -> Event<A>
        ensures { event_of result ≡ message_from self bytes }
    {
        match self {
            Sender::FromClient(conn) => Event::Client {
                client: Client::Tcp(conn),
                bytes,
            },
            Sender::FromServer(conn, from) => Event::Delivery {
                path: Path::Tcp(conn),
                from,
                bytes,
            },
        }
    }
}
