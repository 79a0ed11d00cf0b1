//! The list of calls, for proofs alone.

ghost use Rattle.std.specs.Borrow.{ftrue};
ghost use Rattle.std.specs.Prelude.{◌≡◌, ◌∷◌, ◌++◌, [], List};
ghost use Rattle.system_calls.specs.Call.{Call};

use crate::sockets::{DatagramSocket, Listener, Reports, Stream};
use mio::{Interest, Token};
use std::io;
use std::marker::Model;
use std::net::SocketAddr;
use std::time::{Duration, Instant};

/// A call with its arguments and its answer, as its function notes them.
#[derive(Clone, Copy, Drop)]
pub(crate) enum Note<'a> {
    FillRandom(&'a [u8], &'a io::Result<()>),
    StartClock(&'a io::Result<Instant>),
    ReadClock(&'a Instant, &'a io::Result<Duration>),
    Bind(&'a SocketAddr, &'a io::Result<DatagramSocket>),
    SetReceiveBuffer(&'a DatagramSocket, &'a [u8], &'a i32),
    Connect(&'a DatagramSocket, &'a SocketAddr, &'a io::Result<()>),
    SendTo(&'a DatagramSocket, &'a [u8], &'a SocketAddr, &'a io::Result<usize>),
    Send(&'a DatagramSocket, &'a [u8], &'a io::Result<usize>),
    Receive(&'a DatagramSocket, &'a [u8], &'a io::Result<(usize, SocketAddr)>),
    Listen(&'a SocketAddr, &'a io::Result<Listener>),
    Accept(&'a Listener, &'a io::Result<(Stream, SocketAddr)>),
    Begin(&'a SocketAddr, &'a io::Result<Stream>),
    SetNoDelay(&'a Stream, &'a io::Result<()>),
    Read(&'a Stream, &'a [u8], &'a io::Result<usize>),
    Write(&'a Stream, &'a [u8], &'a io::Result<usize>),
    MakeReports(&'a io::Result<Reports>),
    WatchDatagrams(&'a DatagramSocket, &'a Token, &'a Interest, &'a io::Result<()>),
    WatchListener(&'a Listener, &'a Token, &'a Interest, &'a io::Result<()>),
    WatchStream(&'a Stream, &'a Token, &'a Interest, &'a io::Result<()>),
    Wait(&'a Option<Duration>, &'a io::Result<()>),
}

/// The calls in order. The list takes no octets, and its functions do nothing when the program
/// runs. Only the contracts of its functions say what the list has. So code without a proof by hand
/// cannot forge a list.
#[derive(Drop)]
pub(crate) struct Noted {
    pub ghost calls: { List Call },
}

impl Model for Noted {
    ghost also_owns = { λ _. ftrue };
}

impl Noted {
    ghost use Rattle.system_calls.specs.Notes.{call_of};

    /// A list without calls.
    pub fn new() -> Noted
        ensures { result.calls ≡ [] }
    {
        Noted {}
    }

    /// The list with this call after the others.
    #[inline(always)]
    pub fn and(&self, _note: &Note<'_>) -> Noted
        ensures { result.calls ≡ self.now.calls ++ call_of _note.now ∷ [] }
    {
        Noted {}
    }
}
