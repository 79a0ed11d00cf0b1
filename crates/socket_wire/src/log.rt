//! The report of a wire over sockets, which proofs alone read.

ghost use Rattle.std.specs.Prelude.{◌≡◌};
ghost use Rattle.step_values.specs.Values.{action_of};
ghost use Rattle.wires.specs.Wire.{◌then◌, arrived, silence, was_put, words_were};
ghost use Rattle.socket_wire.specs.Seen.{came_of};

use call_log::CallLog;
use std::alloc::{AllocError, Allocator};
use std::marker::Model;
use step_values::Action;
use wires::Arrival;

/// What sockets gave and took, in order, the moments aside. It takes no octets, and its functions
/// do nothing when the program runs.
#[derive(Drop)]
pub(crate) struct Log<A: Allocator> {
    arrivals: CallLog<Result<Arrival<A>, AllocError>, ()>,
    puts: CallLog<Action<A>, bool>,
    words: CallLog<[u32; 8], ()>,
}

impl<A: Allocator> Model for Log<A> {
    ghost use Rattle.wires.specs.Wire.{Report};
    ghost use Rattle.socket_wire.specs.Seen.{report_of};

    ghost Value = { Report };

    ghost view = { λ log. report_of log.arrivals.calls log.puts.calls log.words.calls };
}

impl<A: Allocator> Log<A> {
    /// Starts with no calls.
    pub fn new() -> Log<A>
        ensures { result ≡ silence }
    {
        Log {
            arrivals: CallLog::new(),
            puts: CallLog::new(),
            words: CallLog::new(),
        }
    }

    /// Notes the arrival that a turn gave, or that memory for it ran out.
    pub fn came(&mut self, came: &Result<Arrival<A>, AllocError>)
        ensures { self.new ≡ self.old then arrived (came_of came.now) }
    {
        self.arrivals = self.arrivals.and(came, &());
    }

    /// Notes an action, and whether it was done.
    pub fn put(&mut self, action: &Action<A>, is_done: bool)
        ensures { self.new ≡ self.old then was_put (action_of action.now) is_done }
    {
        self.puts = self.puts.and(action, &is_done);
    }

    /// Notes words that were given.
    pub fn words(&mut self, words: [u32; 8])
        ensures { self.new ≡ self.old then words_were words }
    {
        self.words = self.words.and(&words, &());
    }
}
