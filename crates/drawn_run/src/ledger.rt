//! The waiting questions and the open queries, by the actions so far.

use crate::fault::Fault;
use std::alloc::Global;
use step_values::{Client, Path};
use suffix_routes::{Limits, Peer};

/// The greatest effective moment, in milliseconds.
const LATEST: u64 = 1 << 62;

/// A question without its reply.
#[derive(Clone, Copy)]
pub(crate) struct Waiting {
    pub client: Client,
    /// The first four octets of the message: identifier and flags.
    pub head: [u16; 2],
    /// The effective moment of its arrival.
    pub taken: u64,
}

/// An open query: sent, with its path not closed.
#[derive(Drop)]
pub(crate) struct Query {
    pub path: Path,
    pub server: Peer,
    pub octets: Vec<u8>,
    /// The effective moment of its sending.
    pub asked: u64,
}

/// Waiting questions and open queries, both in the order of time.
#[derive(Drop)]
pub(crate) struct Ledger {
    pub waiting: Vec<Waiting>,
    pub open: Vec<Query>,
    /// The effective moment, in milliseconds.
    pub moment: u64,
    /// How many queries went over TCP since the last restart.
    pub over_tcp: u64,
}

impl Ledger {
    /// Nothing waits, nothing is open.
    pub(crate) fn new(alloc: Global) -> Ledger {
        Ledger {
            waiting: Vec::new(alloc),
            open: Vec::new(alloc),
            moment: 0,
            over_tcp: 0,
        }
    }

    /// A step's moment. A moment below an earlier moment counts as the earlier.
    pub(crate) fn pass(&mut self, now: u64) {
        self.moment = now.min(LATEST).max(self.moment);
    }

    /// All is forgotten, the moment too.
    pub(crate) fn restart(&mut self) {
        self.waiting.clear();
        self.open.clear();
        self.moment = 0;
        self.over_tcp = 0;
    }

    /// Whether a query is open on this path.
    pub(crate) fn is_open(&self, path: Path) -> bool {
        self.open.iter().any(|query| query.path == path)
    }

    /// A path is closed; the path has to be open.
    pub(crate) fn close(&mut self, path: Path) -> Result<(), Fault> {
        for place in 0..self.open.len() {
            if place < self.open.len() && self.open[place].path == path {
                let _query = self.open.remove(place);
                return Ok(());
            }
        }
        Err(Fault::Close)
    }

    /// Whether the oldest question has reached its deadline, or the oldest query the end of its
    /// time.
    pub(crate) fn is_due(&self, limits: Limits) -> bool {
        let (question, query) = (self.waiting.first(), self.open.first());
        question.is_some_and(|q| q.taken.saturating_add(limits.deadline_ms) <= self.moment)
            || query.is_some_and(|q| q.asked.saturating_add(limits.ask_ms) <= self.moment)
    }

    /// How many questions and queries there are.
    pub(crate) fn left(&self) -> usize {
        self.waiting.len().saturating_add(self.open.len())
    }
}
