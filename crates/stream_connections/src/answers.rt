//! The system's answers to calls on sockets, and their consequences.

ghost use Rattle.std.specs.Prelude.{◌≡◌};
ghost use Rattle.stream_connections.specs.Answers.{by_kind, heard_by, refusal_of, taken_by};

use std::io;
use std::io::ErrorKind;

/// The reason why a call on a socket, which never waits, gave nothing.
#[derive(Clone, Copy)]
pub enum Refusal {
    /// The call would have to wait (EAGAIN).
    WouldBlock,
    /// A signal came first (EINTR). Calls that never wait do not report signals, so this counts as
    /// a failure.
    Interrupted,
    /// The process has all the descriptors of its limit (EMFILE).
    NoDescriptor,
    /// Anything else: the socket, its path or the system failed.
    Failed,
}

/// The result of reading a stream.
#[derive(Drop)]
pub enum Heard {
    /// The number of octets, at least one.
    Octets(usize),
    /// Nothing is there now.
    Nothing,
    /// Nothing, now and later: a server sends nothing more, or a client sends nothing more and
    /// waits for nothing.
    Done,
    /// Nothing, because the stream failed.
    Failed,
}

impl Refusal {
    /// Returns the refusal of this error of a call.
    pub fn of(error: &io::Error) -> Refusal
        ensures { result ≡ refusal_of error.now }
    {
        if error.raw_os_error() == Some(libc::EMFILE) {
            return Refusal::NoDescriptor;
        }
        Refusal::by_kind(error.kind())
    }

    fn by_kind(kind: ErrorKind) -> Refusal
        ensures { result ≡ by_kind kind }
    {
        match kind {
            ErrorKind::WouldBlock => Refusal::WouldBlock,
            ErrorKind::Interrupted => Refusal::Interrupted,
            _ => Refusal::Failed,
        }
    }
}

/// Returns the number of octets taken by a stream, by its answer to a write: 0 if the write would
/// block. `Err` if the stream takes none any more.
pub(crate) fn taken_by(answer: io::Result<usize>) -> io::Result<usize>
    ensures { result ≡ taken_by answer }
{
    match answer {
        Ok(count) => Ok(count),
        Err(error) => match Refusal::of(&error) {
            Refusal::WouldBlock => Ok(0),
            Refusal::Interrupted | Refusal::NoDescriptor | Refusal::Failed => Err(error),
        },
    }
}

/// The result of reading a stream, by the system's answer: a read of no octets is its end.
pub(crate) fn heard_by(answer: io::Result<usize>) -> Heard
    ensures { result ≡ heard_by answer }
{
    match answer {
        Ok(0) => Heard::Done,
        Ok(count) => Heard::Octets(count),
        Err(error) => match Refusal::of(&error) {
            Refusal::WouldBlock => Heard::Nothing,
            Refusal::Interrupted | Refusal::NoDescriptor | Refusal::Failed => Heard::Failed,
        },
    }
}
