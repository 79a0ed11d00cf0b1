//! A step: its input and its outcome.

ghost use Rattle.std.specs.Prelude.{◌≡◌, IfOk};

use crate::action::Actions;
use crate::event::Event;
use std::alloc::{AllocError, Allocator, Global};
use std::marker::Model;

/// The outcome of a step.
#[derive(Drop)]
pub struct Outcome<A: Allocator = Global> {
    /// The actions, in the order of their execution.
    pub actions: Actions<A>,
    /// How many entries found no memory in the cache.
    pub unkept: u32,
    /// A deadline or a timeout is due already.
    pub more: bool,
}

impl<A: Allocator> Model for Outcome<A> {
    ghost use Rattle.step_values.specs.Values.{Outcome, actions_of};

    ghost Value = { Outcome };

    ghost view = { λ o. record { actions = actions_of o.actions; unkept = o.unkept; more = o.more } };
}

/// The input of a step: a moment in milliseconds, random words, and an event.
#[derive(Drop)]
pub struct StepInput<A: Allocator = Global> {
    pub now: u64,
    pub words: [u32; 8],
    pub event: Event<A>,
}

impl<A: Allocator> Model for StepInput<A> {
    ghost use Rattle.step_values.specs.Values.{StepInput, event_of};

    ghost Value = { StepInput };

    ghost view = { λ h. record { now = h.now; words = h.words; event = event_of h.event } };
}

impl<A: Allocator + Copy> StepInput<A> {
    /// Equal values.
    pub fn copy(&self, alloc: A) -> Result<StepInput<A>, AllocError>
        ensures { IfOk result (λ input. input ≡ self.entry.now) }
    {
        Ok(StepInput {
            now: self.now,
            words: self.words,
            event: self.event.copy(alloc)?,
        })
    }
}

/// A step, with its outcome.
#[derive(Drop)]
pub struct Step<A: Allocator = Global> {
    pub input: StepInput<A>,
    pub outcome: Outcome<A>,
}

impl<A: Allocator> Model for Step<A> {
    ghost use Rattle.step_values.specs.Values.{Step};

    ghost Value = { Step };

    ghost view = { λ s. record { input = s.input; outcome = s.outcome } };
}
