//! The calls, each made and noted by one function.

ghost use Rattle.std.specs.Prelude.{◌≡◌, ◌≤◌, ◌∷◌, ◌++◌, [], ℤ, length, replicate, IfOk, OnErr};
ghost use Rattle.std.specs.Prelude.{◌^◌};
ghost use Rattle.std.specs.Counts.{IsPrefixLen};
ghost use Rattle.std.specs.Int.{to_le_bytes, w32};
ghost use Rattle.std.specs.Io.{ReadsAtMost, WritesAtMost};
ghost use Rattle.mio.specs.Events.{items, capacity as events_capacity};
ghost use Rattle.system_calls.specs.Call as call;
ghost use Rattle.system_calls.specs.Options.{SetsReceiveBuffer};

use crate::noted::{Note, Noted};
use crate::receive_buffer::room_asked;
use crate::sockets::{DatagramSocket, Listener, Reports, Stream};
use libc::net::{SO_RCVBUF, SOL_SOCKET, setsockopt};
use mio::net::{TcpListener, TcpStream, UdpSocket};
use mio::{Events, Interest, Poll, Token};
use std::alloc::Allocator;
use std::io;
use std::io::{Read, Write};
use std::marker::Model;
use std::net::{Net, SocketAddr};
use std::os::fd::AsRawFd;
use std::random::RandomSource;
use std::rt::Clock;
use std::time::{Duration, Instant};

/// The calls made so far, each with arguments and answer, in order, noted for proofs alone.
#[derive(Drop)]
pub struct Calls {
    noted: Noted,
}

impl Model for Calls {
    ghost use Rattle.std.specs.Prelude.{List};
    ghost use Rattle.system_calls.specs.Call.{Call};

    ghost Value = { List Call };

    ghost view = { λ c. c.noted.calls };
}

impl Calls {
    /// Starts with no call.
    pub fn new() -> Calls
        ensures { result ≡ [] }
    {
        Calls {
            noted: Noted::new(),
        }
    }

    /// Fills the octets with random ones.
    pub fn fill_random(&mut self, source: &impl RandomSource, octets: &mut [u8]) -> io::Result<()>
        ensures noted { self.new ≡ self.old ++ call.fill_random octets.new result ∷ [] }
        ensures count { length octets.new ≡ length octets.old }
    {
        let answer = source.fill_bytes(octets);
        self.noted = self.noted.and(&Note::FillRandom(octets, &answer));
        answer
    }

    /// Reads the clock, which other readings then refer to.
    pub fn start_clock(&mut self, clock: &impl Clock) -> io::Result<Instant>
        ensures { self.new ≡ self.old ++ call.start_clock result ∷ [] }
    {
        let answer = Instant::now(clock);
        self.noted = self.noted.and(&Note::StartClock(&answer));
        answer
    }

    /// Returns the time since an earlier reading of the clock.
    pub fn read_clock(&mut self, clock: &impl Clock, started: &Instant) -> io::Result<Duration>
        ensures { self.new ≡ self.old ++ call.read_clock started.now result ∷ [] }
    {
        let answer = started.elapsed(clock);
        self.noted = self.noted.and(&Note::ReadClock(started, &answer));
        answer
    }

    /// Makes a socket for datagrams, bound at this address.
    pub fn bind(&mut self, net: &impl Net, at: SocketAddr) -> io::Result<DatagramSocket>
        ensures { self.new ≡ self.old ++ call.bind at result ∷ [] }
    {
        let answer = match UdpSocket::bind(net, at) {
            Ok(inner) => Ok(DatagramSocket { inner }),
            Err(error) => Err(error),
        };
        self.noted = self.noted.and(&Note::Bind(&at, &answer));
        answer
    }

    /// Asks the system to keep more datagrams until read. The system may give less; if refused, the
    /// buffer stays the same.
    pub fn widen(&mut self, socket: &DatagramSocket)
        ensures { SetsReceiveBuffer socket.now (to_le_bytes w32 (2 ^ 20) ++ replicate 12 0)
            self.old self.new }
    {
        let value = room_asked();
        let fd = socket.inner.as_raw_fd();
        let status = unsafe { setsockopt(fd, SOL_SOCKET, SO_RCVBUF, &value, 4) };
        self.noted = self
            .noted
            .and(&Note::SetReceiveBuffer(socket, &value, &status));
    }

    /// Connects a socket: it receives from this address alone, and sends to it.
    pub fn connect(&mut self, socket: &DatagramSocket, to: SocketAddr) -> io::Result<()>
        ensures { self.new ≡ self.old ++ call.connect socket.now to result ∷ [] }
    {
        let answer = socket.inner.connect(to);
        self.noted = self.noted.and(&Note::Connect(socket, &to, &answer));
        answer
    }

    /// Sends a datagram to this address.
    pub fn send_to(
        &mut self,
        socket: &DatagramSocket,
        octets: &[u8],
        to: SocketAddr,
    ) -> io::Result<usize>
        ensures { self.new ≡ self.old ++ call.send_to socket.now octets.now to result ∷ [] }
    {
        let answer = socket.inner.send_to(octets, to);
        self.noted = self.noted.and(&Note::SendTo(socket, octets, &to, &answer));
        answer
    }

    /// Sends a datagram to the address that the socket is connected to.
    pub fn send(&mut self, socket: &DatagramSocket, octets: &[u8]) -> io::Result<usize>
        ensures { self.new ≡ self.old ++ call.send socket.now octets.now result ∷ [] }
    {
        let answer = socket.inner.send(octets);
        self.noted = self.noted.and(&Note::Send(socket, octets, &answer));
        answer
    }

    /// Receives a datagram into the buffer. Returns the number of its octets, and its sender.
    pub fn receive(
        &mut self,
        socket: &DatagramSocket,
        buffer: &mut [u8],
    ) -> io::Result<(usize, SocketAddr)>
        ensures noted { self.new ≡ self.old ++ call.receive socket.now buffer.new result ∷ [] }
        ensures bound { IfOk result (λ received. IsPrefixLen received.0 buffer.new) }
        ensures count { length buffer.new ≡ length buffer.old }
    {
        let answer = socket.inner.recv_from(buffer);
        self.noted = self.noted.and(&Note::Receive(socket, buffer, &answer));
        answer
    }

    /// Makes a listener for connections, at this address.
    pub fn listen(&mut self, net: &impl Net, at: SocketAddr) -> io::Result<Listener>
        ensures { self.new ≡ self.old ++ call.listen at result ∷ [] }
    {
        let answer = match TcpListener::bind(net, at) {
            Ok(inner) => Ok(Listener { inner }),
            Err(error) => Err(error),
        };
        self.noted = self.noted.and(&Note::Listen(&at, &answer));
        answer
    }

    /// Accepts a client's connection. Returns it, and the client's address.
    pub fn accept(&mut self, listener: &Listener) -> io::Result<(Stream, SocketAddr)>
        ensures { self.new ≡ self.old ++ call.accept listener.now result ∷ [] }
    {
        let answer = match listener.inner.accept() {
            Ok((inner, from)) => Ok((Stream { inner }, from)),
            Err(error) => Err(error),
        };
        self.noted = self.noted.and(&Note::Accept(listener, &answer));
        answer
    }

    /// Begins a connection to this address.
    pub fn begin(&mut self, net: &impl Net, to: SocketAddr) -> io::Result<Stream>
        ensures { self.new ≡ self.old ++ call.begin to result ∷ [] }
    {
        let answer = match TcpStream::connect(net, to) {
            Ok(inner) => Ok(Stream { inner }),
            Err(error) => Err(error),
        };
        self.noted = self.noted.and(&Note::Begin(&to, &answer));
        answer
    }

    /// Has small writes sent without delay.
    pub fn set_no_delay(&mut self, stream: &Stream) -> io::Result<()>
        ensures { self.new ≡ self.old ++ call.set_no_delay stream.now result ∷ [] }
    {
        let answer = stream.inner.set_nodelay(true);
        self.noted = self.noted.and(&Note::SetNoDelay(stream, &answer));
        answer
    }

    /// Reads octets into the buffer, and returns their number.
    pub fn read(&mut self, stream: &mut Stream, buffer: &mut [u8]) -> io::Result<usize>
        ensures noted { self.new ≡ self.old ++ call.read stream.old buffer.new result ∷ [] }
        ensures bound { ReadsAtMost result buffer.new }
        ensures same { stream.new ≡ stream.old }
    {
        let answer = stream.inner.read(buffer);
        self.noted = self.noted.and(&Note::Read(stream, buffer, &answer));
        answer
    }

    /// Offers octets to the stream, and returns the number of those taken.
    pub fn write(&mut self, stream: &mut Stream, octets: &[u8]) -> io::Result<usize>
        ensures noted { self.new ≡ self.old ++ call.write stream.old octets.now result ∷ [] }
        ensures bound { WritesAtMost result octets.now }
        ensures same { stream.new ≡ stream.old }
    {
        let answer = stream.inner.write(octets);
        self.noted = self.noted.and(&Note::Write(stream, octets, &answer));
        answer
    }

    /// Makes a list of watched sockets, with none.
    pub fn make_reports(&mut self, net: &impl Net) -> io::Result<Reports>
        ensures { self.new ≡ self.old ++ call.make_reports result ∷ [] }
    {
        let answer = match Poll::new(net) {
            Ok(inner) => Ok(Reports { inner }),
            Err(error) => Err(error),
        };
        self.noted = self.noted.and(&Note::MakeReports(&answer));
        answer
    }

    /// Has the system report when a socket for datagrams is ready.
    pub fn watch_datagrams(
        &mut self,
        reports: &Reports,
        socket: &mut DatagramSocket,
        token: Token,
        interest: Interest,
    ) -> io::Result<()>
        ensures noted { self.new ≡ self.old ++ call.watch_datagrams socket.old token interest result ∷ [] }
        ensures same { socket.new ≡ socket.old }
    {
        let registry = reports.inner.registry();
        let answer = registry.register(&mut socket.inner, token, interest);
        self.noted = self
            .noted
            .and(&Note::WatchDatagrams(socket, &token, &interest, &answer));
        answer
    }

    /// Has the system report when a listener is ready.
    pub fn watch_listener(
        &mut self,
        reports: &Reports,
        listener: &mut Listener,
        token: Token,
        interest: Interest,
    ) -> io::Result<()>
        ensures noted { self.new ≡ self.old ++ call.watch_listener listener.old token interest result ∷ [] }
        ensures same { listener.new ≡ listener.old }
    {
        let registry = reports.inner.registry();
        let answer = registry.register(&mut listener.inner, token, interest);
        self.noted = self
            .noted
            .and(&Note::WatchListener(listener, &token, &interest, &answer));
        answer
    }

    /// Has the system report when a stream is ready.
    pub fn watch_stream(
        &mut self,
        reports: &Reports,
        stream: &mut Stream,
        token: Token,
        interest: Interest,
    ) -> io::Result<()>
        ensures noted { self.new ≡ self.old ++ call.watch_stream stream.old token interest result ∷ [] }
        ensures same { stream.new ≡ stream.old }
    {
        let registry = reports.inner.registry();
        let answer = registry.register(&mut stream.inner, token, interest);
        self.noted = self
            .noted
            .and(&Note::WatchStream(stream, &token, &interest, &answer));
        answer
    }

    /// Waits until a watched socket is ready, for this time at most. Afterwards `events` are the
    /// system's reports.
    pub fn wait<A: Allocator>(
        &mut self,
        reports: &mut Reports,
        events: &mut Events<A>,
        pause: Option<Duration>,
    ) -> io::Result<()>
        ensures noted { self.new ≡ self.old ++ call.wait pause result ∷ [] }
        ensures count { length (items events.new) ≤ events_capacity events.old }
        ensures err { OnErr result (items events.new ≡ []) }
        ensures capacity { events_capacity events.new ≡ events_capacity events.old }
    {
        let answer = reports.inner.poll(events, pause);
        self.noted = self.noted.and(&Note::Wait(&pause, &answer));
        answer
    }
}
