//! The sockets of a wire, with a note of what they gave and took.

ghost use Rattle.std.specs.Prelude.{◌≡◌, ◌-◌, ◌^◌, ◌∷◌, ◌++◌, [], Some, true, is_ok};
ghost use Rattle.step_values.specs.Values.{action_of};
ghost use Rattle.wires.specs.Wire.{◌then◌, arrived, silence, was_put, words_were};
ghost use Rattle.wires.specs.Wire.Arrival.{nothing};
ghost use Rattle.socket_wire.specs.Looking.{TakesTurnAt, TriesReportedAt};
ghost use Rattle.socket_wire.specs.Moments.{ReadsOnce};
ghost use Rattle.socket_wire.specs.Putting.{PutsAction, with_spent};
ghost use Rattle.socket_wire.specs.Seen.{came_of, report_at_once};
ghost use Rattle.socket_wire.specs.Words.{GivesWords};

use crate::log::Log;
use crate::moments::Moments;
use crate::sockets::Sockets;
use plain_values::Octets;
use std::alloc::{AllocError, Allocator};
use std::io;
use std::net::Net;
use std::rt::Clock;
use step_values::Action;
use wires::Arrival;

/// Sockets, and a note of each arrival that they gave, of each action that they were asked to do,
/// and of the words that they gave. Nothing else reaches the sockets of a wire.
#[derive(Drop)]
pub(crate) struct Noted<'a, R: Net, A: Allocator> {
    sockets: Sockets<'a, R, A>,
    log: Log<A>,
}

impl<'a, R: Net, A: Allocator + Copy> Noted<'a, R, A> {
    /// Sockets of which nothing is noted yet.
    pub fn new(sockets: Sockets<'a, R, A>) -> Noted<'a, R, A>
        ensures { (result.sockets ≡ sockets.entry) × (result.log ≡ silence) }
    {
        Noted {
            sockets,
            log: Log::new(),
        }
    }

    /// Returns the next arrival, at a moment that the clock says now. Where nothing arrived it is
    /// not noted: `reported` comes next.
    pub fn arrival<C: Clock>(
        &mut self,
        moments: &mut Moments<'_, C>,
    ) -> Result<Arrival<A>, AllocError>
        ensures turn { TakesTurnAt moments.old.started moments.old.last moments.new.last result
            self.old.sockets self.new.sockets }
        ensures notes { self.new.log ≡ report_at_once self.old.log result }
        ensures moments { moments.new
            ≡ record moments.old { last = moments.new.last; is_read = true } }
    {
        moments.read_again();
        let now = self.sockets.moment(moments);
        let came = self.sockets.arrival(now);
        match &came {
            Ok(Arrival::Nothing) => {}
            _ => self.log.came(&came),
        }
        came
    }

    /// Returns the arrival of a socket that the events of a wait reported, at the moment after it.
    /// It does not wait.
    pub fn reported<C: Clock>(
        &mut self,
        moments: &mut Moments<'_, C>,
    ) -> Result<Arrival<A>, AllocError>
        ensures tries { TriesReportedAt moments.old.started moments.old.last moments.new.last
            result self.old.sockets self.new.sockets }
        ensures notes { self.new.log ≡ self.old.log then arrived (came_of result) }
        ensures moments { moments.new
            ≡ record moments.old { last = moments.new.last; is_read = true } }
    {
        moments.read_again();
        let now = self.sockets.moment(moments);
        let came = self.sockets.reported(now);
        self.log.came(&came);
        came
    }

    /// Gives a step its moment, in ms.
    pub fn moment<C: Clock>(&mut self, moments: &mut Moments<'_, C>) -> u64
        ensures reads { ReadsOnce moments.old.is_read moments.old.started moments.old.last result
            self.old.sockets.calls self.new.sockets.calls }
        ensures report { result ≡ moments.new.last }
        ensures notes { moments.new.given.calls ≡ moments.old.given.calls ++ (result, tt) ∷ [] }
        ensures moments { moments.new ≡ record moments.old {
          last = moments.new.last;
          is_read = true;
          given = moments.new.given;
        } }
        ensures rest { self.new ≡ record self.old {
          sockets = record self.old.sockets { calls = self.new.sockets.calls };
        } }
    {
        self.sockets.give_moment(moments)
    }

    /// Does an action, at the moment of its step. `Err` if the system refuses, or memory ran out.
    pub fn put<C: Clock>(&mut self, action: &Action<A>, moments: &Moments<'_, C>) -> io::Result<()>
        ensures puts { PutsAction action.now moments.now.last (is_ok result)
            (with_spent action.now self.old.sockets) self.new.sockets }
        ensures notes { self.new.log
            ≡ self.old.log then was_put (action_of action.now) (is_ok result) }
    {
        let done = self.sockets.put(action, moments.last);
        self.log.put(action, done.is_ok());
        done
    }

    /// Returns the random words for the next step.
    pub fn words(&mut self) -> [u32; 8]
        ensures gives { GivesWords result self.old.sockets.words self.new.sockets.words }
        ensures notes { self.new.log ≡ self.old.log then words_were result }
        ensures rest { self.new.sockets ≡ record self.old.sockets { words = self.new.sockets.words } }
    {
        let words = self.sockets.words();
        self.log.words(words);
        words
    }

    /// Notes that nothing arrives any more, once this count of faults is at its last value.
    pub fn stay_silent(&mut self, _faults: u64)
        requires last { _faults ≡ 2 ^ 64 - 1 }
        ensures notes { self.new.log ≡ self.old.log then arrived (Some nothing) }
        ensures same { self.new.sockets ≡ self.old.sockets }
    {
        self.log.came(&Ok(Arrival::Nothing));
    }

    /// Notes an action as done that is left out, once this count of faults is at its last value.
    pub fn leave_out(&mut self, action: &Action<A>, _faults: u64)
        requires last { _faults ≡ 2 ^ 64 - 1 }
        ensures notes { self.new.log ≡ self.old.log then was_put (action_of action.now) true }
        ensures same { self.new.sockets ≡ self.old.sockets }
    {
        self.log.put(action, true);
    }

    /// Takes back the memory of octets that were served.
    pub fn take_back(&mut self, octets: &mut Octets<A>)
        ensures { self.new ≡ self.old }
    {
        self.sockets.take_back(octets);
    }
}
