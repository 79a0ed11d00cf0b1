//! The sockets that calls are made on. Only `Calls` makes calls on them.

use mio::Poll;
use mio::net::{TcpListener, TcpStream, UdpSocket};

/// A socket for datagrams.
#[derive(Drop)]
pub struct DatagramSocket {
    pub(crate) inner: UdpSocket,
}

/// A socket that connections of clients arrive at.
#[derive(Drop)]
pub struct Listener {
    pub(crate) inner: TcpListener,
}

/// A connection.
#[derive(Drop)]
pub struct Stream {
    pub(crate) inner: TcpStream,
}

/// The system's list of watched sockets, which reports those that may be ready.
#[derive(Drop)]
pub struct Reports {
    pub(crate) inner: Poll,
}
