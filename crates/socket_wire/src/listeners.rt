//! The sockets that clients send to.

ghost use Rattle.std.specs.Prelude.{IfOk};
ghost use Rattle.socket_wire.specs.Listening.{BindsDatagrams, Listens};

use crate::answers::kept_if;
use ready_sockets::{Origin, Readiness};
use std::alloc::Allocator;
use std::io;
use std::net::{Net, SocketAddr};
use system_calls::{Calls, DatagramSocket, Listener};

/// Binds a socket for datagrams at this address. `Err` if the system refuses.
pub(crate) fn datagrams_at<A: Allocator + Copy>(
    calls: &mut Calls,
    net: &impl Net,
    readiness: &Readiness<A>,
    at: SocketAddr,
) -> io::Result<DatagramSocket>
    ensures { IfOk result (λ socket. BindsDatagrams at socket calls.old calls.new) }
{
    let mut socket = calls.bind(net, at)?;
    calls.widen(&socket);
    let watched = readiness.watch_datagrams(calls, &mut socket, Origin::Datagrams);
    kept_if(socket, watched)
}

/// Binds a listener for connections at this address. `Err` if the system refuses.
pub(crate) fn connections_at<A: Allocator + Copy>(
    calls: &mut Calls,
    net: &impl Net,
    readiness: &Readiness<A>,
    at: SocketAddr,
) -> io::Result<Listener>
    ensures { IfOk result (λ listener. Listens at listener calls.old calls.new) }
{
    let mut listener = calls.listen(net, at)?;
    let watched = readiness.watch_listener(calls, &mut listener);
    kept_if(listener, watched)
}
