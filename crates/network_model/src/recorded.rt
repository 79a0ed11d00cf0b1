//! A forwarder with its stored history.

ghost use Rattle.std.specs.Prelude.{◌≡◌, ◌∷◌, ◌++◌, [], IfOk, OnOk, OnErr};
ghost use Rattle.step_values.specs.Values.{Outcome};
ghost use Rattle.step_table.specs.Row.{Row};
ghost use Rattle.step_table.specs.Steps.{initial};
ghost use Rattle.serving_loop.specs.TheoremUse.Service.{ServesTruly};

use serving_loop::Forwarder;
use std::alloc::{AllocError, Allocator, Global};
use std::hash::BuildHasher;
use std::marker::Model;
use step_values::{Step, StepInput};
use suffix_routes::Config;

/// A forwarder and its steps since it was new. They serve truly at each moment.
#[derive(Drop)]
pub struct Recorded<H: BuildHasher, A: Allocator = Global> {
    forwarder: Forwarder<H, A>,
    steps: Vec<Step<A>, A>,
}

impl<H: BuildHasher, A: Allocator> Model for Recorded<H, A> {
    ghost use Rattle.serving_loop.specs.TheoremUse.Service.{ComesTo};
    ghost use Rattle.network_model.specs.Recordings.{Recording};

    ghost Value = { Recording };

    ghost view = { λ r. record { running = r.forwarder; steps = r.steps.items } };

    ghost invariant = { λ r. ComesTo r.forwarder.config r.steps.items r.forwarder.state };
}

impl<H: BuildHasher + Drop, A: Allocator + Copy> Recorded<H, A> {
    /// A new forwarder, without steps.
    pub fn new(alloc: A, config: Config<A>, hasher: H) -> Result<Recorded<H, A>, AllocError>
        ensures { IfOk result (λ recorded. recorded
            ≡ record { running = record { config = config; state = initial config }; steps = [] }) }
    {
        let forwarder = Forwarder::new(alloc, config, hasher)?;
        Ok(Recorded {
            forwarder,
            steps: Vec::new(alloc),
        })
    }

    /// The steps so far, the oldest first.
    pub fn steps(&self) -> &[Step<A>]
        ensures steps { result.now ≡ self.now.steps }
        ensures truly { ServesTruly self.now.running.config result.now }
    {
        self.steps.as_slice()
    }

    /// Makes a step, and stores its input and outcome.
    pub fn step(&mut self, input: StepInput<A>) -> Result<(), AllocError>
        ensures ok { OnOk result ((outcome : Outcome)
            × (self.new.steps
            ≡ self.old.steps ++ record { input = input; outcome = outcome } ∷ [])
            × Row self.old.running.config self.old.running.state input outcome
            self.new.running.state) }
        ensures config { self.new.running.config ≡ self.old.running.config }
        ensures err { OnErr result (self.new ≡ self.old) }
    {
        self.steps.reserve(1)?;
        let outcome = self.forwarder.step(input.now, input.words, &input.event)?;
        self.steps.push_reserved(Step { input, outcome });
        Ok(())
    }
}
