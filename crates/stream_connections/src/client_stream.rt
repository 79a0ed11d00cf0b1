//! A connection of a client.

ghost use Rattle.std.specs.Prelude.{◌≡◌, ◌≤◌, ◌+◌, ◌-◌, ◌^◌, not, nat_lt, length, Ok, Err, OnOk, OnErr};
ghost use Rattle.std.specs.Io.{ReadsAtMost};
ghost use Rattle.stream_connections.specs.declared.lost.Lost.TheVariants.{Gone};
ghost use Rattle.stream_connections.specs.Answers.{heard_by};
ghost use Rattle.stream_connections.specs.Queries.{IsWithin};
ghost use Rattle.stream_connections.specs.Waiting.{IsNew, is_done, is_idle, is_late, is_resting, silence_of};
ghost use Rattle.stream_connections.specs.Serving.{HearsBy, HearsPiece, Receives, ReceivesAfter, Replies, Sends};
ghost use Rattle.stream_connections.specs.Serving.{Serves, WroteBy, with_frame};

use crate::answers::{Heard, heard_by};
use crate::lost::Lost;
use crate::streams::offer;
use plain_values::Octets;
use std::alloc::{AllocError, Allocator};
use std::io;
use system_calls::{Calls, Stream};
use tcp_frames::{Unsent, Within, frame};

/// The time, in ms, without a whole message, or without octets taken, after which a client is
/// closed (RFC 7766 6.2.3).
const PATIENCE: u64 = 10_000;

/// The time, in ms, after which an idle client gives way if no descriptor is left for a query or
/// for a new client. A client's first question is read within this time.
const REST: u64 = 1_000;

/// The most octets of replies kept for a client.
const MOST_UNSENT: usize = 1 << 20;

/// A connection that a client opened.
#[derive(Drop)]
pub(crate) struct ClientStream<A: Allocator> {
    stream: Stream,
    /// Frames of replies that the client has not taken yet.
    unsent: Unsent<A>,
    within: Within,
    /// The number of whole messages without a reply.
    unanswered: usize,
    /// Whether the client sends nothing more.
    ended: bool,
    /// The moment, in ms, of the last whole message or reply.
    active: u64,
    /// The last moment, in ms, at which the client took octets, or had none left to take.
    took: u64,
}

impl<A: Allocator + Copy> ClientStream<A> {
    pub fn new(alloc: A, stream: Stream, now: u64) -> ClientStream<A>
        ensures { IsNew stream now result }
    {
        ClientStream {
            stream,
            unsent: Unsent::new(alloc),
            within: Within::Nothing,
            unanswered: 0,
            ended: false,
            active: now,
            took: now,
        }
    }

    /// Whether the client waits for nothing.
    pub fn is_idle(&self) -> bool
        ensures { result ≡ is_idle self.now.unanswered self.now.unsent.left }
    {
        self.unanswered == 0 && self.unsent.is_empty()
    }

    /// Whether the client has waited for nothing for a second.
    pub fn is_resting(&self, now: u64) -> bool
        ensures { result ≡ is_resting self.now.unanswered self.now.unsent.left self.now.active now }
    {
        self.is_idle() && now.saturating_sub(self.active) >= REST
    }

    /// Whether the client has been silent for too long (RFC 7766 6.2.3). With replies due,
    /// `deadline` ms more are allowed.
    pub fn is_late(&self, now: u64, deadline: u64) -> bool
        ensures { result ≡ is_late self.now.unanswered self.now.unsent.left self.now.took self.now.active now deadline }
    {
        if !self.unsent.is_empty() {
            return now.saturating_sub(self.took) >= PATIENCE;
        }
        let silent = now.saturating_sub(self.active);
        let allowed = if self.unanswered == 0 { 0 } else { deadline };
        silent >= PATIENCE && silent - PATIENCE >= allowed
    }

    /// Sends the octets left, and reads into the buffer.
    pub fn serve(&mut self, calls: &mut Calls, buffer: &mut [u8], now: u64) -> Heard
        ensures { Serves result now buffer.new calls.old calls.new self.old self.new }
    {
        let sent = self.send(calls, now);
        self.receive_after(sent, calls, buffer, now)
    }

    /// Sends a reply after its length in two octets (RFC 1035 4.2.2). Returns whether the
    /// connection goes on.
    pub fn reply(
        &mut self,
        calls: &mut Calls,
        alloc: A,
        reply: &[u8],
        now: u64,
    ) -> Result<bool, Lost>
        ensures { Replies reply.now now result calls.old calls.new self.old self.new }
    {
        if self.is_too_much(reply.len()) {
            return Err(Lost::TooMuch);
        }
        self.list(frame(alloc, reply)?, now)?;
        let sent = self.send(calls, now);
        self.goes_on_after(sent)
    }

    /// Sends as many octets of the replies as the stream takes. `Err` if the stream takes none any
    /// more.
    fn send(&mut self, calls: &mut Calls, now: u64) -> io::Result<()>
        ensures sends { Sends now result calls.old calls.new self.old self.new }
        ensures fewer { length self.new.unsent.left ≤ length self.old.unsent.left }
    {
        let taken = offer(calls, &mut self.stream, &mut self.unsent);
        self.wrote(taken, now)
    }

    /// Notes the progress of a write, by the number of taken octets: none are no progress. `Err` if
    /// the stream takes nothing any more.
    fn wrote(&mut self, taken: io::Result<usize>, now: u64) -> io::Result<()>
        ensures wrote { WroteBy taken now result self.old self.new }
        ensures rest { self.new ≡ record self.old { took = self.new.took } }
    {
        match taken {
            Ok(0) => Ok(()),
            Ok(_) => {
                self.took = now;
                Ok(())
            }
            Err(error) => Err(error),
        }
    }

    /// Reads into the buffer, unless the send before failed.
    fn receive_after(
        &mut self,
        sent: io::Result<()>,
        calls: &mut Calls,
        buffer: &mut [u8],
        now: u64,
    ) -> Heard
        ensures { ReceivesAfter sent result now buffer.new calls.old calls.new self.old self.new }
    {
        match sent {
            Ok(()) => self.receive(calls, buffer, now),
            Err(_) => Heard::Failed,
        }
    }

    /// Reads a piece of the stream into the buffer.
    fn receive(&mut self, calls: &mut Calls, buffer: &mut [u8], now: u64) -> Heard
        ensures { Receives result now buffer.new calls.old calls.new self.old self.new }
    {
        if self.ended {
            return self.silence();
        }
        let answer = calls.read(&mut self.stream, buffer);
        self.hear(answer, buffer, now)
    }

    /// Notes the stream's answer to a read into the buffer: a piece, the end, or neither.
    fn hear(&mut self, answer: io::Result<usize>, buffer: &[u8], now: u64) -> Heard
        requires within { ReadsAtMost answer buffer.now }
        ensures hears { HearsBy (heard_by answer) now buffer.now result self.old self.new }
        ensures bound { IsWithin result buffer.now }
    {
        match heard_by(answer) {
            Heard::Octets(count) => {
                self.heard(&buffer[..count], now);
                Heard::Octets(count)
            }
            Heard::Done => {
                self.ended = true;
                self.silence()
            }
            Heard::Nothing => Heard::Nothing,
            Heard::Failed => Heard::Failed,
        }
    }

    /// Counts the messages that end in a piece of the stream.
    fn heard(&mut self, piece: &[u8], now: u64)
        ensures { HearsPiece piece.now now self.old self.new }
    {
        let messages = self.within.count(piece);
        self.unanswered = self.unanswered.saturating_add(messages);
        if messages > 0 {
            self.active = now;
        }
    }

    /// Returns `Done` or `Nothing` for a client that sends nothing now.
    fn silence(&self) -> Heard
        ensures { result ≡ silence_of self.now }
    {
        if self.is_done() {
            Heard::Done
        } else {
            Heard::Nothing
        }
    }

    /// Whether a reply of `octets` octets would leave more than 1 MiB.
    fn is_too_much(&self, octets: usize) -> bool
        ensures { result ≡ nat_lt (2 ^ 20) (length self.now.unsent.left + octets + 2) }
    {
        self.unsent.len().saturating_add(octets) > MOST_UNSENT - 2
    }

    /// Appends the frame of a reply to the octets left.
    fn list(&mut self, frame: Octets<A>, now: u64) -> Result<(), AllocError>
        ensures ok { OnOk result (self.new ≡ with_frame frame now self.old) }
        ensures err { OnErr result (self.new ≡ self.old) }
    {
        let was_empty = self.unsent.is_empty();
        self.unsent.push(frame)?;
        if was_empty {
            self.took = now;
        }
        self.replied(now);
        Ok(())
    }

    /// Notes a message's reply.
    fn replied(&mut self, now: u64)
        ensures { self.new ≡ record self.old { unanswered = self.old.unanswered - 1; active = now } }
    {
        self.unanswered = self.unanswered.saturating_sub(1);
        self.active = now;
    }

    /// Returns whether the connection goes on after this send. `Err` if the stream takes nothing
    /// any more.
    fn goes_on_after(&self, sent: io::Result<()>) -> Result<bool, Lost>
        ensures ok { OnOk sent (result ≡ Ok (not (is_done self.now))) }
        ensures err { OnErr sent (result ≡ Err Gone) }
    {
        match sent {
            Ok(()) => Ok(!self.is_done()),
            Err(_) => Err(Lost::Gone),
        }
    }

    /// Whether the client sends nothing more and waits for nothing.
    fn is_done(&self) -> bool
        ensures { result ≡ is_done self.now }
    {
        self.ended && self.is_idle()
    }
}
