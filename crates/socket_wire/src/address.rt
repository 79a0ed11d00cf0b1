//! Peers as addresses of sockets.

ghost use Rattle.std.specs.Prelude.{◌≡◌};
ghost use Rattle.socket_wire.specs.Addresses.{IsAddressOf, at_any_address, peer_at};

use std::net::{Ipv4Addr, SocketAddr, SocketAddrV4};
use suffix_routes::Peer;

/// The address of a peer.
pub(crate) fn address_of(peer: Peer) -> SocketAddr
    ensures { IsAddressOf peer result }
{
    let [first, second, third, fourth] = peer.ip;
    let ip = Ipv4Addr::new(first, second, third, fourth);
    SocketAddr::V4(SocketAddrV4::new(ip, peer.port))
}

/// The peer at an address; `None` for IPv6.
pub(crate) fn peer_of(address: SocketAddr) -> Option<Peer>
    ensures { result ≡ peer_at address }
{
    match address {
        SocketAddr::V4(v4) => Some(Peer {
            ip: v4.ip().octets(),
            port: v4.port(),
        }),
        SocketAddr::V6(_) => None,
    }
}

/// This port on every address of this machine.
pub(crate) fn any_address(port: u16) -> SocketAddr
    ensures { IsAddressOf (at_any_address port) result }
{
    SocketAddr::V4(SocketAddrV4::new(Ipv4Addr::UNSPECIFIED, port))
}

/// The addresses of the socket of an ask.
#[derive(Clone, Copy)]
pub(crate) struct Ends {
    /// The ask's own address.
    pub own: SocketAddr,
    /// The address of the asked server.
    pub server: SocketAddr,
}

/// Returns the addresses of the socket of an ask from this port to this server.
pub(crate) fn ends_of(port: u16, server: Peer) -> Ends
    ensures own { IsAddressOf (at_any_address port) result.own }
    ensures server { IsAddressOf server result.server }
{
    Ends {
        own: any_address(port),
        server: address_of(server),
    }
}
