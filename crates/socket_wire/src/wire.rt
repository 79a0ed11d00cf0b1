//! The wire.

ghost use Rattle.std.specs.Prelude.{◌≡◌, ◌<◌, ◌+◌, ◌-◌, ◌^◌, Some, IfOk, OnErr, OnOk};
ghost use Rattle.wires.specs.Wire.{silence};
ghost use Rattle.socket_wire.specs.History.{IsOfCalls};
ghost use Rattle.socket_wire.specs.Listening.{IsOpenedAt};

use crate::answers::kept_if;
use crate::moments::Moments;
use crate::noted::Noted;
use crate::sockets::Sockets;
use crate::words::Words;
use plain_values::Octets;
use std::alloc::{Allocator, Global};
use std::io;
use std::marker::Model;
use std::net::Net;
use std::random::RandomSource;
use std::rt::Clock;
use step_values::Action;
use suffix_routes::{Limits, Peer};
use system_calls::Calls;
use wires::{Arrival, Wire, WireFault};

/// A wire over sockets. It listens at one address by UDP and TCP, asks from a socket of its own for
/// each ask, and waits for none of them. Contracts see what its calls gave and took, the number of
/// faults it counted, how long a question on a connection may wait, the system's calls, and the
/// random words.
#[derive(Drop)]
pub struct MioWire<'a, R: Net + Clock, A: Allocator = Global> {
    sockets: Noted<'a, R, A>,
    moments: Moments<'a, R>,
    faults: u64,
}

impl<'a, R: Net + Clock, A: Allocator> Model for MioWire<'a, R, A> {
    ghost use Rattle.std.specs.Prelude.{◌<◌, ◌-◌, ◌^◌};
    ghost use Rattle.socket_wire.specs.History.{Lives};
    ghost use Rattle.socket_wire.specs.Seen.{SeenWire, with_moments};

    ghost Value = { SeenWire };

    ghost view = { λ w. record {
      report = with_moments w.sockets.log w.moments.given.calls;
      faults = w.faults;
      deadline = w.sockets.sockets.deadline;
      calls = w.sockets.sockets.calls;
      words = w.sockets.sockets.words;
    } };

    ghost invariant = { λ w. w.faults < 2 ^ 64 - 1 → Lives (record {
      sockets = w.sockets.sockets;
      started = w.moments.started;
      last = w.moments.last;
      is_read = w.moments.is_read;
      log = w.sockets.log;
      given = w.moments.given.calls;
    }) };
}

impl<'a, R: Net + Clock + RandomSource, A: Allocator + Copy> MioWire<'a, R, A> {
    /// Makes a wire that listens at this address, with no fault counted. A question on a connection
    /// waits for its reply for the time in the limits. `Err` if the system refuses, gives no random
    /// octets or no time, or memory ran out.
    pub fn new(rt: &'a R, alloc: A, listen: Peer, limits: &Limits) -> io::Result<MioWire<'a, R, A>>
        ensures report { IfOk result (λ wire. wire.report ≡ silence) }
        ensures faults { IfOk result (λ wire. wire.faults ≡ 0) }
        ensures deadline { IfOk result (λ wire. wire.deadline ≡ limits.now.deadline_ms) }
        ensures opened { IfOk result (λ wire. IsOpenedAt listen wire) }
    {
        let mut calls = Calls::new();
        let mut seed = [0u8; 32];
        let filled = calls.fill_random(rt, &mut seed);
        let words = Words::new(kept_if(seed, filled)?);
        let mut sockets = Sockets::new(calls, rt, alloc, listen, limits, words)?;
        let moments = sockets.started(rt)?;
        Ok(MioWire {
            sockets: Noted::new(sockets),
            moments,
            faults: 0,
        })
    }
}

impl<R: Net + Clock, A: Allocator + Copy> MioWire<'_, R, A> {
    /// Does nothing. What the wire gave and took since its opening, its calls gave and were asked,
    /// in order, as long as its count of faults is below the last value.
    pub fn is_of_calls(&self)
        ensures { self.now.faults < 2 ^ 64 - 1 → IsOfCalls A self.now }
    {
        let _faults = self.faults;
    }
}

impl<R: Net + Clock, A: Allocator + Copy> Wire<A> for MioWire<'_, R, A> {
    ghost report = { λ wire. Some wire.report };

    ghost fault_count = { λ wire. wire.faults };

    fn arrival(&mut self) -> Result<Arrival<A>, WireFault> {
        if self.faults == u64::MAX {
            self.sockets.stay_silent(self.faults);
            return Ok(Arrival::Nothing);
        }
        let came = match self.sockets.arrival(&mut self.moments) {
            // Arrivals during the wait have the moment after it.
            Ok(Arrival::Nothing) => self.sockets.reported(&mut self.moments),
            came => came,
        };
        match came {
            Ok(Arrival::Nothing) => {
                // The ticks have a moment of their own.
                self.moments.read_again();
                Ok(Arrival::Nothing)
            }
            Ok(arrival) => Ok(arrival),
            Err(_) => {
                self.faults += 1;
                Err(WireFault)
            }
        }
    }

    fn put(&mut self, action: &Action<A>) -> Result<(), WireFault> {
        if self.faults == u64::MAX {
            self.sockets.leave_out(action, self.faults);
            return Ok(());
        }
        match self.sockets.put(action, &self.moments) {
            Ok(()) => Ok(()),
            Err(_) => {
                self.faults += 1;
                Err(WireFault)
            }
        }
    }

    fn take_back(&mut self, octets: &mut Octets<A>)
        ensures reports { Some self.new.report ≡ Some self.old.report }
        ensures faults { self.new.faults ≡ self.old.faults }
    {
        self.sockets.take_back(octets);
    }

    fn moment(&mut self) -> u64 {
        self.sockets.moment(&mut self.moments)
    }

    fn words(&mut self) -> [u32; 8] {
        self.sockets.words()
    }

    fn faults(&self) -> u64 {
        self.faults
    }
}
