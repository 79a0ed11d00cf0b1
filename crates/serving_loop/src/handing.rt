//! Gives events to the forwarder, and puts the actions of their steps.

ghost use Rattle.std.specs.Prelude.{◌≡◌, ◌∷◌, [], None, option_map};
ghost use Rattle.step_values.specs.Values.{event_of, action_of, actions_of, ask_in};
ghost use Rattle.serving_loop.specs.Serving.{standing};
ghost use Rattle.serving_loop.specs.Handing.{Puts, Hands, HandsOn, Ticks};

use crate::looping::Loop;
use std::alloc::Allocator;
use std::hash::BuildHasher;
use step_values::{Action, Actions, Event, Path};
use wires::Wire;

/// The result of an event.
#[derive(Clone, Copy, Drop)]
pub(crate) struct Handled {
    /// The path of a refused ask.
    pub failed: Option<Path>,
    /// Whether something is due already.
    pub more: bool,
}

impl<H: BuildHasher + Drop, A: Allocator + Copy, W: Wire<A>> Loop<'_, '_, H, A, W> {
    /// Gives an event to the forwarder, and after each refused ask the failure of its path. Returns
    /// whether more was due after the event.
    pub(crate) fn hand_on(&mut self, event: &Event<A>) -> bool
        ensures { HandsOn (event_of event.now) result (standing W.report W.fault_count self.old)
            (standing W.report W.fault_count self.new) }
    {
        let handled = self.hand(event);
        let mut failed = handled.failed;
        while let Some(path) = failed {
            failed = self.hand(&Event::PathFailed { path }).failed;
        }
        handled.more
    }

    /// Gives the event of a datagram to the forwarder, and the memory of its octets back to the
    /// wire. Returns whether more was due after the event.
    pub(crate) fn hand_datagram(&mut self, mut event: Event<A>) -> bool
        ensures { HandsOn (event_of event) result (standing W.report W.fault_count self.old)
            (standing W.report W.fault_count self.new) }
    {
        let more = self.hand_on(&event);
        match &mut event {
            Event::Client { bytes, .. } | Event::Delivery { bytes, .. } => {
                self.wire.take_back(bytes);
            }
            Event::PathFailed { .. } | Event::Tick | Event::Restart => {}
        }
        more
    }

    /// Gives ticks to the forwarder until a tick reports that nothing more is due, or finds no
    /// memory.
    pub(crate) fn tick_on(&mut self)
        ensures { Ticks (standing W.report W.fault_count self.old) (standing W.report W.fault_count self.new) }
    {
        while self.hand_on(&Event::Tick) {}
    }

    /// Gives an event to the forwarder, and puts the actions of its step. An event that finds no
    /// memory is lost.
    fn hand(&mut self, event: &Event<A>) -> Handled
        ensures { Hands (event_of event.now) result.failed result.more (standing W.report W.fault_count self.old)
            (standing W.report W.fault_count self.new) }
    {
        let now = self.wire.moment();
        let words = self.wire.words();
        match self.forwarder.step(now, words, event) {
            Ok(outcome) => Handled {
                failed: self.put_all(&outcome.actions),
                more: outcome.more,
            },
            Err(_) => {
                self.counts.lost = self.counts.lost.saturating_add(1);
                Handled {
                    failed: None,
                    more: false,
                }
            }
        }
    }

    /// Puts actions in order. Returns the path of the refused ask, if any.
    fn put_all(&mut self, actions: &Actions<A>) -> Option<Path>
        ensures { Puts None (actions_of actions.now) result (standing W.report W.fault_count self.old)
            (standing W.report W.fault_count self.new) }
    {
        let mut failed = None;
        for place in 0..actions.len() {
            let Some(action) = actions.get(place) else {
                unreachable!();
            };
            failed = self.put(action, failed);
        }
        failed
    }

    /// Puts an action. Returns the path of the last refused ask.
    fn put(&mut self, action: &Action<A>, failed: Option<Path>) -> Option<Path>
        ensures { Puts failed (action_of action.now ∷ []) result (standing W.report W.fault_count self.old)
            (standing W.report W.fault_count self.new) }
    {
        match self.wire.put(action) {
            Ok(()) => failed,
            Err(_) => match path_of_ask(action) {
                Some(path) => Some(path),
                None => {
                    self.counts.refused_puts = self.counts.refused_puts.saturating_add(1);
                    failed
                }
            },
        }
    }
}

/// Returns the path of an ask; `None` for another action.
fn path_of_ask<A: Allocator>(action: &Action<A>) -> Option<Path>
    ensures { result ≡ option_map (λ ask. ask.path) (ask_in (action_of action.now)) }
{
    match action {
        Action::AskUdp { port, .. } => Some(Path::Udp(*port)),
        Action::AskTcp { conn, .. } => Some(Path::Tcp(*conn)),
        Action::CloseUdp { .. } | Action::CloseTcp { .. } | Action::Reply { .. } => None,
    }
}
