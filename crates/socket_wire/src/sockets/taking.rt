//! Reads what a socket has received.

ghost use Rattle.std.specs.Prelude.{◌≡◌, IfOk};
ghost use Rattle.std.specs.Counts.{IsPrefixLen};
ghost use Rattle.socket_wire.specs.Arriving.{AcceptsBy, FreesBy, FreesFor, MayCloseResting};
ghost use Rattle.socket_wire.specs.Arriving.{TakesConnection, TakesIn};
ghost use Rattle.socket_wire.specs.Attempting.{Attempts};
ghost use Rattle.socket_wire.specs.Taking.{HearsAsk, HearsDatagram, IsPiece, TakesAsk, TakesClient};
ghost use Rattle.socket_wire.specs.Taking.{TakesDatagram};
ghost use Rattle.socket_wire.specs.Taking.{LosesAsk, TakesServer};

use super::{LARGEST, Sockets};
use crate::address::peer_of;
use crate::answers::kept_if;
use crate::spare::Spare;
use plain_values::Octets;
use ready_sockets::Origin;
use std::alloc::{AllocError, Allocator};
use std::io;
use std::net::{Net, SocketAddr};
use step_values::Path;
use stream_connections::{Heard, Refusal, ServerHeard};
use system_calls::Stream;
use wires::Arrival;

/// The result of trying a socket.
pub(super) enum Tried<A: Allocator> {
    Arrived(Arrival<A>),
    /// Nothing arrives now, but there may be more.
    Served,
    /// Nothing is there.
    Nothing,
}

impl<R: Net, A: Allocator + Copy> Sockets<'_, R, A> {
    /// Tries a socket. `Err` if memory for the arrival ran out.
    pub(super) fn attempt(&mut self, origin: Origin, now: u64) -> Result<Tried<A>, AllocError>
        ensures { Attempts origin now result self.old self.new }
    {
        match origin {
            Origin::Datagrams => self.take_datagram(),
            Origin::Connections => Ok(self.take_connection(now)),
            Origin::Client(conn) => self.take_client(conn, now),
            Origin::Ask(port) => self.take_ask(port),
            Origin::Server(conn) => self.take_server(conn),
        }
    }

    /// A client's datagram.
    fn take_datagram(&mut self) -> Result<Tried<A>, AllocError>
        ensures { TakesDatagram result self.old self.new }
    {
        let answer = self.calls.receive(&self.datagrams, &mut self.buffer[..]);
        self.hear_datagram(answer)
    }

    /// A client's datagram, by the answer of its socket: nothing if refused, whatever the reason.
    fn hear_datagram(
        &mut self,
        answer: io::Result<(usize, SocketAddr)>,
    ) -> Result<Tried<A>, AllocError>
        requires within { IfOk answer (λ received. IsPrefixLen received.0 self.old.buffer) }
        ensures hears { HearsDatagram answer self.old.buffer result }
        ensures same { self.new ≡ self.old }
    {
        let Ok((count, from)) = answer else {
            return Ok(Tried::Nothing);
        };
        let Some(from) = peer_of(from) else {
            return Ok(Tried::Served);
        };
        let bytes = piece(self.alloc, &mut self.spare, &self.buffer, count)?;
        Ok(Tried::Arrived(Arrival::ClientDatagram { from, bytes }))
    }

    /// A client's connection. If no descriptor is left, the oldest client that has waited for
    /// nothing for a while is closed, so that the next turn has a descriptor.
    fn take_connection(&mut self, now: u64) -> Tried<A>
        ensures { TakesConnection now result self.old self.new }
    {
        let answer = self.calls.accept(&self.listener);
        self.accept(answer, now)
    }

    /// A client's connection, by the answer of the listener.
    fn accept(&mut self, answer: io::Result<(Stream, SocketAddr)>, now: u64) -> Tried<A>
        ensures { AcceptsBy answer now result self.old self.new }
    {
        match answer {
            Ok((stream, _)) => {
                let _refused = self.admit(stream, now);
                Tried::Served
            }
            Err(error) => {
                if self.frees_descriptor(Refusal::of(&error), now) {
                    Tried::Served
                } else {
                    Tried::Nothing
                }
            }
        }
    }

    /// If a call found no descriptor left, closes the oldest connection of a client that has waited
    /// for nothing for a while. True if a connection was closed, and the call is worth a second
    /// try.
    pub(super) fn frees_for<T>(&mut self, answer: &io::Result<T>, now: u64) -> bool
        ensures by { FreesBy answer.now now result self.old self.new }
        ensures may { MayCloseResting now result self.old self.new }
    {
        match answer {
            Ok(_) => false,
            Err(error) => self.frees_descriptor(Refusal::of(error), now),
        }
    }

    /// If this refusal says that no descriptor is left, closes the oldest connection of a client
    /// that has waited for nothing for a while. True if a connection was closed.
    fn frees_descriptor(&mut self, refusal: Refusal, now: u64) -> bool
        ensures by { FreesFor refusal now result self.old self.new }
        ensures may { MayCloseResting now result self.old self.new }
    {
        match refusal {
            Refusal::NoDescriptor => self.connections.close_resting(now),
            Refusal::WouldBlock | Refusal::Interrupted | Refusal::Failed => false,
        }
    }

    /// Lists a client's connection under the next number. Of the most connections, the oldest that
    /// waits for nothing goes, otherwise the new one. `Err` if the new one goes because the system
    /// refuses or memory ran out.
    fn admit(&mut self, stream: Stream, now: u64) -> io::Result<()>
        ensures { TakesIn stream now self.old self.new }
    {
        if !self.connections.make_place() {
            return Ok(());
        }
        let Some(conn) = self.numbers.give() else {
            return Ok(());
        };
        let is_prompt = self.calls.set_no_delay(&stream);
        let mut stream = kept_if(stream, is_prompt)?;
        let origin = Origin::Client(conn);
        let watched = self
            .readiness
            .watch_stream(&mut self.calls, &mut stream, origin);
        let stream = kept_if(stream, watched)?;
        self.connections.keep_room()?;
        self.connections.admit(self.alloc, conn, stream, now)?;
        Ok(())
    }

    /// A piece of a client's stream. A client silent for too long is closed only after this read:
    /// after a stall of the service, messages sent in time may be unread.
    fn take_client(&mut self, conn: u64, now: u64) -> Result<Tried<A>, AllocError>
        ensures { TakesClient conn now result self.old self.new }
    {
        let heard = self
            .connections
            .serve_client(&mut self.calls, conn, &mut self.buffer[..], now);
        if self.connections.is_late(conn, now, self.deadline) {
            self.connections.close_client(conn);
            return Ok(Tried::Served);
        }
        match heard {
            Some(Heard::Octets(count)) => match piece(
                self.alloc,
                &mut self.spare,
                &self.buffer,
                count,
            ) {
                Ok(bytes) => Ok(Tried::Arrived(Arrival::ClientStream { conn, bytes })),
                Err(refusal) => {
                    self.connections.close_client(conn);
                    Err(refusal)
                }
            },
            Some(Heard::Nothing) | None => Ok(Tried::Nothing),
            Some(Heard::Done | Heard::Failed) => {
                self.connections.close_client(conn);
                Ok(Tried::Served)
            }
        }
    }

    /// A datagram at the port of an ask. A failing socket is dropped, and its end reported.
    fn take_ask(&mut self, port: u16) -> Result<Tried<A>, AllocError>
        ensures { TakesAsk port result self.old self.new }
    {
        let Some(socket) = self.asks.at(port) else {
            return Ok(Tried::Nothing);
        };
        let answer = self.calls.receive(socket, &mut self.buffer[..]);
        self.hear_ask(port, answer)
    }

    /// A datagram at the port of an ask, by the answer of its socket. A failing socket is dropped,
    /// and its end reported.
    fn hear_ask(
        &mut self,
        port: u16,
        answer: io::Result<(usize, SocketAddr)>,
    ) -> Result<Tried<A>, AllocError>
        requires within { IfOk answer (λ received. IsPrefixLen received.0 self.old.buffer) }
        ensures hears { HearsAsk port answer self.old.buffer result
            self.old.asks self.new.asks }
        ensures rest { self.new ≡ record self.old { asks = self.new.asks } }
    {
        match answer {
            Ok((count, from)) => {
                let Some(from) = peer_of(from) else {
                    return Ok(Tried::Served);
                };
                let bytes = piece(self.alloc, &mut self.spare, &self.buffer, count)?;
                Ok(Tried::Arrived(Arrival::ServerDatagram { port, from, bytes }))
            }
            Err(error) => Ok(self.lose_ask(port, Refusal::of(&error))),
        }
    }

    /// The result for the socket of an ask that refused a read: nothing if the read would block.
    /// For any other reason the socket is dropped, and its end reported.
    fn lose_ask(&mut self, port: u16, refusal: Refusal) -> Tried<A>
        ensures loses { LosesAsk port refusal result self.old.asks self.new.asks }
        ensures rest { self.new ≡ record self.old { asks = self.new.asks } }
    {
        match refusal {
            Refusal::WouldBlock => Tried::Nothing,
            Refusal::Interrupted | Refusal::NoDescriptor | Refusal::Failed => {
                self.asks.end(port);
                let path = Path::Udp(port);
                Tried::Arrived(Arrival::PathGone { path })
            }
        }
    }

    /// A piece of a server's stream.
    fn take_server(&mut self, conn: u64) -> Result<Tried<A>, AllocError>
        ensures { TakesServer conn result self.old self.new }
    {
        let served = self
            .connections
            .serve_server(&mut self.calls, conn, &mut self.buffer[..]);
        let Some(ServerHeard { server, heard }) = served else {
            return Ok(Tried::Nothing);
        };
        match heard {
            Heard::Octets(count) => match piece(self.alloc, &mut self.spare, &self.buffer, count) {
                Ok(bytes) => {
                    let from = server;
                    Ok(Tried::Arrived(Arrival::ServerStream { conn, from, bytes }))
                }
                Err(refusal) => {
                    self.connections.close_server(conn);
                    Err(refusal)
                }
            },
            Heard::Nothing => Ok(Tried::Nothing),
            Heard::Done | Heard::Failed => {
                self.connections.close_server(conn);
                Ok(Tried::Served)
            }
        }
    }
}

/// Copies the first `count` octets of the buffer into the spare memory.
fn piece<A: Allocator + Copy>(
    alloc: A,
    spare: &mut Spare<A>,
    buffer: &[u8; LARGEST],
    count: usize,
) -> Result<Octets<A>, AllocError>
    ensures { IfOk result (λ octets. IsPiece count buffer.now octets) }
{
    spare.copied(alloc, buffer.get(..count).unwrap_or(&[]))
}
