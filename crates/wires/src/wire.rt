//! The calls of the loop to a wire.

ghost use Rattle.std.specs.Prelude.{◌≡◌, ℕ, ◌<◌, Option, IfOk, OnErr, is_ok};
ghost use Rattle.step_values.specs.Values.{action_of};
ghost use Rattle.wires.specs.Wire.{Report, ReportsMore, journal, arrival_of, given, arrived, was_put, moment_was};
ghost use Rattle.wires.specs.Wire.{words_were};

use plain_values::{Octets, PlainList};
use std::alloc::{AllocError, Allocator, Global};
use step_values::{Action, Path};
use suffix_routes::Peer;
use thiserror::Error;

/// An arrival at a wire: octets of a client or of a server, or the end of a connection or a path.
#[derive(Drop)]
pub enum Arrival<A: Allocator = Global> {
    /// Nothing arrived.
    Nothing,
    /// A client's datagram.
    ClientDatagram {
        from: Peer,
        bytes: Octets<A>,
    },
    /// A piece of the stream on a client's connection, cut anywhere.
    ClientStream {
        conn: u64,
        bytes: Octets<A>,
    },
    /// A client's connection is closed.
    ClientClosed {
        conn: u64,
    },
    /// A datagram at the port of an ask.
    ServerDatagram {
        port: u16,
        from: Peer,
        bytes: Octets<A>,
    },
    /// A piece of the stream on the connection of an ask, cut anywhere.
    ServerStream {
        conn: u64,
        from: Peer,
        bytes: Octets<A>,
    },
    /// The path of an ask is closed, or has failed.
    PathGone {
        path: Path,
    },
}

impl<A: Allocator + Copy> Arrival<A> {
    /// An equal arrival.
    pub fn copy(&self, alloc: A) -> Result<Arrival<A>, AllocError>
        ensures { IfOk result (λ arrival. arrival ≡ self.now) }
    {
        match self {
            Arrival::Nothing => Ok(Arrival::Nothing),
            Arrival::ClientDatagram { from, bytes } => Ok(Arrival::ClientDatagram {
                from: *from,
                bytes: PlainList::copied(alloc, bytes.as_slice())?,
            }),
            Arrival::ClientStream { conn, bytes } => Ok(Arrival::ClientStream {
                conn: *conn,
                bytes: PlainList::copied(alloc, bytes.as_slice())?,
            }),
            Arrival::ClientClosed { conn } => Ok(Arrival::ClientClosed { conn: *conn }),
            Arrival::ServerDatagram { port, from, bytes } => Ok(Arrival::ServerDatagram {
                port: *port,
                from: *from,
                bytes: PlainList::copied(alloc, bytes.as_slice())?,
            }),
            Arrival::ServerStream { conn, from, bytes } => Ok(Arrival::ServerStream {
                conn: *conn,
                from: *from,
                bytes: PlainList::copied(alloc, bytes.as_slice())?,
            }),
            Arrival::PathGone { path } => Ok(Arrival::PathGone { path: *path }),
        }
    }
}

/// The wire refused the call.
#[derive(Clone, Copy, PartialEq, Eq, Debug, Drop, Error)]
#[error("the wire refused the call")]
pub struct WireFault;

/// A carrier of messages to and from the forwarder, which knows the time.
pub trait Wire<A: Allocator> {
    /// Its input and output so far; `None` claims nothing. A report stays while no fault is
    /// counted.
    ghost report: { Self → Option Report };

    /// Its count of faults.
    ghost fault_count: { Self → ℕ };

    /// The next arrival. `Err` only after a fault, which the wire counted; the arrival is lost.
    fn arrival(&mut self) -> Result<Arrival<A>, WireFault>
        ensures reports { ReportsMore (journal (report self.old) (fault_count self.old)) (arrived (given result))
            (journal (report self.new) (fault_count self.new)) }
        ensures faults { OnErr result (fault_count self.old < fault_count self.new) };

    /// Does an action. `Err` only after a fault, which the wire counted; the action is lost.
    fn put(&mut self, action: &Action<A>) -> Result<(), WireFault>
        ensures reports { ReportsMore (journal (report self.old) (fault_count self.old))
            (was_put (action_of action.now) (is_ok result)) (journal (report self.new) (fault_count self.new)) }
        ensures faults { OnErr result (fault_count self.old < fault_count self.new) };

    /// May take back the memory of served octets: the next arrival may be in this memory.
    fn take_back(&mut self, octets: &mut Octets<A>)
        ensures reports { report self.new ≡ report self.old }
        ensures faults { fault_count self.new ≡ fault_count self.old };

    /// The moment, in milliseconds.
    fn moment(&mut self) -> u64
        ensures reports { ReportsMore (journal (report self.old) (fault_count self.old)) (moment_was result)
            (journal (report self.new) (fault_count self.new)) };

    /// Random words, sent to nobody yet.
    fn words(&mut self) -> [u32; 8]
        ensures reports { ReportsMore (journal (report self.old) (fault_count self.old)) (words_were result)
            (journal (report self.new) (fault_count self.new)) };

    /// The count of faults, which stays at its last value.
    fn faults(&self) -> u64
        ensures { result ≡ fault_count self.now };
}
