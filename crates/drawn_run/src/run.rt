//! A run of drawn events.

use crate::draws::Draws;
use crate::events::{draw, last_tick, words};
use crate::fault::Fault;
use crate::judging::Judge;
use crate::turns::{TURNS, Turn};
use forwarder_core::Forwarder;
use lru::DefaultHasher;
use std::alloc::{AllocError, Global};
use step_values::StepInput;
use suffix_routes::{Config, Limits};

/// The seed of all draws.
pub(crate) const SEED: u64 = 1;

/// How many events the turn of a configuration has.
const EVENTS: u32 = 10_000;

/// How many reasons a reply may have.
const REASONS: usize = 14;

/// A run: its draws, its judge, and the number of its last event, from 1.
#[derive(Drop)]
pub(crate) struct Run {
    draws: Draws,
    judge: Judge,
    pub number: u32,
}

impl Run {
    pub(crate) fn new(alloc: Global) -> Run {
        Run {
            draws: Draws::new(SEED),
            judge: Judge::new(alloc),
            number: 0,
        }
    }

    /// Runs the turn of each configuration. In all of them every reason has to come.
    pub(crate) fn run(&mut self, alloc: Global) -> Result<(), Fault> {
        for (limits, routes, replies, ports) in TURNS {
            let turn = Turn {
                limits,
                routes,
                replies,
                ports,
            };
            self.take(alloc, turn)?;
        }
        if self.judge.reasons.len() == REASONS {
            Ok(())
        } else {
            Err(Fault::Reasons)
        }
    }

    /// Runs the turn of a configuration, on a new forwarder.
    fn take(&mut self, alloc: Global, turn: Turn) -> Result<(), Fault> {
        let config = config_of(alloc, turn)?;
        let limits = config.limits;
        let mut forwarder = Forwarder::new(alloc, config, DefaultHasher::default())?;
        self.hand(alloc, turn, limits, &mut forwarder)
    }

    /// Passes the events of a turn to the forwarder. The last events are ticks, after which nothing
    /// may wait.
    fn hand(
        &mut self,
        alloc: Global,
        turn: Turn,
        limits: Limits,
        forwarder: &mut Forwarder<DefaultHasher>,
    ) -> Result<(), Fault> {
        self.judge.ledger.restart();
        for number in 0..EVENTS {
            self.number = self.number.saturating_add(1);
            let input = self.next(alloc, turn, (EVENTS - number) as usize)?;
            let outcome = forwarder.step(input.now, input.words, &input.event)?;
            self.judge.judge(limits, &input, &outcome)?;
        }
        if self.judge.ledger.left() == 0 {
            Ok(())
        } else {
            Err(Fault::Lost)
        }
    }

    /// The next event, with `left` to come. An event may leave two pieces of work, and a tick does
    /// one.
    fn next(&mut self, alloc: Global, turn: Turn, left: usize) -> Result<StepInput, AllocError> {
        let words = words(&mut self.draws, turn);
        let ledger = &self.judge.ledger;
        if left <= ledger.left().saturating_add(3) {
            return Ok(last_tick(words, ledger));
        }
        draw(alloc, &mut self.draws, turn, (words, self.number), ledger)
    }
}

/// The configuration of a turn.
fn config_of(alloc: Global, turn: Turn) -> Result<Config, Fault> {
    let text = turn.text(alloc)?;
    match Config::read(alloc, alloc, text.as_str()) {
        Ok(config) => Ok(config),
        Err(_) => Err(Fault::Configuration),
    }
}
