//! Moments that never fall.

ghost use Rattle.std.specs.Prelude.{◌≡◌, ◌≤◌, ◌∷◌, ◌++◌, [], true, false, IfOk, Ok};
ghost use Rattle.system_calls.specs.Call.{start_clock};
ghost use Rattle.socket_wire.specs.Moments.{ReadsOnce, moment_by, moment_of};

use call_log::CallLog;
use std::io;
use std::rt::Clock;
use std::time::{Duration, Instant};
use system_calls::Calls;

/// A clock: ms since its making, by the system's monotonic clock. One reading serves an arrival and
/// all steps of its turn.
#[derive(Drop)]
pub(crate) struct Moments<'a, R: Clock> {
    rt: &'a R,
    started: Instant,
    /// The last moment that was returned.
    pub last: u64,
    /// Whether the last moment is returned again.
    is_read: bool,
    /// The moments that were given to steps, for proofs alone.
    given: CallLog<u64, ()>,
}

impl<'a, R: Clock> Moments<'a, R> {
    /// Starts with no moment returned yet. `Err` if the clock fails.
    pub fn new(calls: &mut Calls, rt: &'a R) -> io::Result<Moments<'a, R>>
        ensures new { IfOk result (λ moments. (moments.last ≡ 0) × (moments.given.calls ≡ [])) }
        ensures calls { IfOk result (λ moments.
            calls.new ≡ calls.old ++ start_clock (Ok moments.started) ∷ []) }
    {
        Ok(Moments {
            rt,
            started: calls.start_clock(rt)?,
            last: 0,
            is_read: false,
            given: CallLog::new(),
        })
    }

    /// Gives a step its moment, in ms, and notes it.
    pub fn give(&mut self, calls: &mut Calls) -> u64
        ensures report { result ≡ self.new.last }
        ensures rises { self.old.last ≤ self.new.last }
        ensures reads { ReadsOnce self.old.is_read self.old.started self.old.last self.new.last
            calls.old calls.new }
        ensures notes { self.new.given.calls ≡ self.old.given.calls ++ (result, tt) ∷ [] }
        ensures rest { self.new
            ≡ record self.old { last = self.new.last; is_read = true; given = self.new.given } }
    {
        let now = self.now(calls);
        self.given = self.given.and(&now, &());
        now
    }

    /// Has the clock read again for the next moment.
    pub fn read_again(&mut self)
        ensures { self.new ≡ record self.old { is_read = false } }
    {
        self.is_read = false;
    }

    /// Returns the moment, in ms. The last moment again, if the clock is not to be read again,
    /// fails or goes back.
    pub fn now(&mut self, calls: &mut Calls) -> u64
        ensures report { result ≡ self.new.last }
        ensures rises { self.old.last ≤ self.new.last }
        ensures reads { ReadsOnce self.old.is_read self.old.started self.old.last self.new.last
            calls.old calls.new }
        ensures rest { self.new ≡ record self.old { last = self.new.last; is_read = true } }
    {
        if self.is_read {
            return self.last;
        }
        self.is_read = true;
        let spent = calls.read_clock(self.rt, &self.started);
        self.note(spent);
        self.last
    }

    /// Notes the moment after this time, by the clock's answer, unless earlier than the last or the
    /// clock failed.
    fn note(&mut self, spent: io::Result<Duration>)
        ensures notes { self.new ≡ record self.old { last = moment_by spent self.old.last } }
        ensures rises { self.old.last ≤ self.new.last }
    {
        if let Ok(spent) = spent {
            self.last = self.last.max(moment_of(spent));
        }
    }
}

/// Returns the whole ms of a time, at most 2^64 - 1.
fn moment_of(spent: Duration) -> u64
    ensures { result ≡ moment_of spent }
{
    u64::try_from(spent.as_millis()).unwrap_or(u64::MAX)
}
