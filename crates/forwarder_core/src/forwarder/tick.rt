//! What is due first, and so whether something is.

ghost use Rattle.std.specs.Prelude.{◌≡◌, [], false, IsTrue, MatchOption};
ghost use Rattle.step_table.specs.Row.{is_due_at};
ghost use Rattle.client_decisions.specs.StepActions.Due.{IsDueFirst};
ghost use Rattle.step_values.specs.Values.{event_of, tick};

use crate::forwarder::Forwarder;
use client_decisions::{Due, first_due};
use std::alloc::Allocator;
use std::hash::BuildHasher;
use step_values::Event;

impl<H: BuildHasher + Drop, A: Allocator + Copy> Forwarder<H, A> {
    /// The question or the ask that is due first. `None` exactly if nothing waits and no ask is
    /// listed.
    pub(crate) fn first_due(&self) -> Option<Due<'_, A>>
        ensures { MatchOption result ((self.now.state.waiting ≡ []) × (self.now.state.asks ≡ []))
            (IsDueFirst self.now.config self.now.state.waiting self.now.state.asks) }
    {
        first_due(&self.config, &self.kept.waiting, &self.kept.inquiries)
    }

    /// Something is due at this moment.
    pub(crate) fn is_due_by(&self, moment: u64) -> bool
        ensures { result ≡ is_due_at self.now.config moment self.now.state }
    {
        match self.first_due() {
            Some(due) => due.moment <= moment,
            None => false,
        }
    }

    /// Whether more is due at the present moment.
    pub(crate) fn is_due(&self) -> bool
        ensures { result ≡ is_due_at self.now.config self.now.state.moment self.now.state }
    {
        self.is_due_by(self.kept.moment)
    }

    /// The event is a tick, and nothing is due at this moment.
    pub(crate) fn is_idle_tick(&self, moment: u64, event: &Event<A>) -> bool
        ensures { IsTrue result → (event_of event.now ≡ tick) × (is_due_at self.now.config moment self.now.state
            ≡ false) }
    {
        matches!(event, Event::Tick) && !self.is_due_by(moment)
    }
}
