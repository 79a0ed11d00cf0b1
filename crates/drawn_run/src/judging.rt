//! Steps, judged by the expectations of clients and servers.

use crate::fault::Fault;
use crate::ledger::{Ledger, Query, Waiting};
use crate::octets::number16;
use crate::texts::{drawn_by_udp, drawn_over_tcp, is_dropped, is_query, is_reply};
use std::alloc::{AllocError, Global};
use step_values::{Action, Client, Event, Outcome, Path, StepInput, Why};
use suffix_routes::{Limits, Peer};

/// The kinds of a step's actions so far, in their order.
#[derive(Clone, Copy, PartialEq, Eq, PartialOrd, Ord)]
enum Done {
    Nothing,
    /// A path was closed.
    Close,
    /// Questions were answered.
    Replies,
    /// A query was sent.
    Query,
}

/// The judge of a run: the forwarder's open questions and queries, and the reasons of replies so
/// far.
#[derive(Drop)]
pub(crate) struct Judge {
    alloc: Global,
    pub ledger: Ledger,
    pub reasons: Vec<Why>,
    done: Done,
    /// The place in the list from which the next reply's question is searched: replies go in the
    /// order of the questions.
    place: usize,
}

impl Judge {
    pub(crate) fn new(alloc: Global) -> Judge {
        Judge {
            alloc,
            ledger: Ledger::new(alloc),
            reasons: Vec::new(alloc),
            done: Done::Nothing,
            place: 0,
        }
    }

    /// Judges a step with these limits.
    pub(crate) fn judge(
        &mut self,
        limits: Limits,
        input: &StepInput,
        outcome: &Outcome,
    ) -> Result<(), Fault> {
        self.enter(input)?;
        for place in 0..outcome.actions.len() {
            if let Some(action) = outcome.actions.get(place) {
                self.act(input, action)?;
            }
        }
        self.end(limits, outcome)
    }

    /// Notes the event of a step. A client's message may not close a path; after a dropped message
    /// and a restart no action may follow.
    fn enter(&mut self, input: &StepInput) -> Result<(), AllocError> {
        self.ledger.pass(input.now);
        self.done = Done::Nothing;
        self.place = 0;
        match &input.event {
            Event::Client { client, bytes } if !is_dropped(bytes.as_slice()) => {
                let octets = bytes.as_slice();
                self.done = Done::Close;
                self.place = self.ledger.waiting.len();
                self.ledger.waiting.push(Waiting {
                    client: *client,
                    head: [number16(octets, 0), number16(octets, 2)],
                    taken: self.ledger.moment,
                })?;
            }
            Event::Client { .. } => self.done = Done::Query,
            Event::Restart => {
                self.ledger.restart();
                self.done = Done::Query;
            }
            _ => {}
        }
        Ok(())
    }

    /// Judges one action: a close comes first, then the replies, and last a query.
    fn act(&mut self, input: &StepInput, action: &Action) -> Result<(), Fault> {
        match action {
            Action::CloseUdp { port } => self.close(Path::Udp(*port)),
            Action::CloseTcp { conn } => self.close(Path::Tcp(*conn)),
            Action::Reply { client, bytes, why } => {
                self.note(*why)?;
                self.reply(*client, bytes.as_slice())
            }
            Action::AskUdp {
                port,
                server,
                bytes,
            } => {
                let drawn = drawn_by_udp(input.words, &self.ledger);
                self.ask((Path::Udp(*port), *server), drawn, bytes.as_slice())
            }
            Action::AskTcp {
                conn,
                server,
                bytes,
            } => {
                let drawn = drawn_over_tcp(input.words, &self.ledger);
                self.ledger.over_tcp = self.ledger.over_tcp.saturating_add(1);
                self.ask((Path::Tcp(*conn), *server), drawn, bytes.as_slice())
            }
        }
    }

    /// Goes on to a part of a step; never back.
    fn reach(&mut self, done: Done) -> Result<(), Fault> {
        if self.done > done || self.done == done && done != Done::Replies {
            return Err(Fault::Order);
        }
        self.done = done;
        Ok(())
    }

    /// A path is closed.
    fn close(&mut self, path: Path) -> Result<(), Fault> {
        self.reach(Done::Close)?;
        self.ledger.close(path)
    }

    /// A query is sent; its path and identifier have to be the drawn ones.
    fn ask(
        &mut self,
        (path, server): (Path, Peer),
        drawn: Option<(Path, u16)>,
        octets: &[u8],
    ) -> Result<(), Fault> {
        self.reach(Done::Query)?;
        if !drawn.is_some_and(|(wanted, id)| wanted == path && is_query(octets, id)) {
            return Err(Fault::Query);
        }
        let (octets, asked) = (Vec::from_slice(self.alloc, octets)?, self.ledger.moment);
        let query = Query {
            path,
            server,
            octets,
            asked,
        };
        self.ledger.open.push(query).map_err(|_| Fault::Memory)
    }

    /// The reason of a reply.
    fn note(&mut self, why: Why) -> Result<(), AllocError> {
        if !self.reasons.contains(&why) {
            self.reasons.push(why)?;
        }
        Ok(())
    }

    /// A question is answered, and waits no longer.
    fn reply(&mut self, client: Client, octets: &[u8]) -> Result<(), Fault> {
        self.reach(Done::Replies)?;
        let id = number16(octets, 0);
        for place in self.place..self.ledger.waiting.len() {
            if place < self.ledger.waiting.len()
                && self.ledger.waiting[place].client == client
                && self.ledger.waiting[place].head[0] == id
            {
                let question = self.ledger.waiting.remove(place);
                self.place = place;
                return if is_reply(self.alloc, octets, &question) {
                    Ok(())
                } else {
                    Err(Fault::Reply)
                };
            }
        }
        Err(Fault::Nobody)
    }

    /// The checks after each step.
    fn end(&self, limits: Limits, outcome: &Outcome) -> Result<(), Fault> {
        let (waiting, open) = (self.ledger.waiting.len(), self.ledger.open.len());
        if outcome.unkept > 0 {
            Err(Fault::Unkept)
        } else if waiting > limits.questions || open > limits.inquiries {
            Err(Fault::Limit)
        } else if outcome.more != self.ledger.is_due(limits) {
            Err(Fault::More)
        } else if (waiting == 0) != (open == 0) {
            Err(Fault::Lost)
        } else {
            Ok(())
        }
    }
}
