//! The decision of a step, with all its memory.

ghost use Rattle.std.specs.Prelude.{◌≡◌, []};
ghost use Rattle.step_values.specs.Values.{actions_of};
ghost use Rattle.step_texts.specs.AliasChains.Offering.{pieces_of};

use outstanding::{Ask, KeyedAsk, Path};
use record_cache::Held;
use std::alloc::{Allocator, Global};
use step_texts::chains::Slots;
use step_texts::waiting::{KeyedWaiting, Onward};
use step_values::Actions;
use suffix_routes::RouteId;

/// The first server to ask from now on: its route, and its place in the route's group.
#[derive(Clone, Copy)]
pub struct Preferred {
    pub route: RouteId,
    pub server: usize,
}

/// A question, and the first ask of its inquiry.
#[derive(Drop)]
pub struct Opening<A: Allocator = Global> {
    pub waiting: KeyedWaiting<A>,
    pub ask: KeyedAsk<A>,
}

/// The questions that waited for the ask on a path: each waits no more, or waits on with these
/// aliases and this question, in the order of taking. The ask is closed, and the first ask for that
/// question is listed, if none is yet.
#[derive(Drop)]
pub struct Redirect<A: Allocator = Global> {
    pub path: Path,
    pub preferred: Preferred,
    pub onward: Vec<Option<Onward<A>>, A>,
    pub ask: Option<Ask<A>>,
}

/// The change besides the moment and the cache. New questions and asks are in a box: most steps
/// list none, so their change is small.
#[derive(Drop)]
pub enum Change<A: Allocator = Global> {
    Nothing,
    /// A question waits for a listed ask.
    Join(Box<KeyedWaiting<A>, A>),
    /// A question waits, and the first ask of its inquiry is listed.
    Open(Box<Opening<A>, A>),
    /// The ask on this path is closed, and the questions waiting for it wait no more.
    Close(Path, Option<Preferred>),
    /// The ask on a path is closed, and the questions waiting for it are redirected.
    SendOn(Box<Redirect<A>, A>),
    /// The ask on this path is closed, and the next for its question is listed.
    AskAgain(Path, Box<Ask<A>, A>),
    /// The oldest question waits no more, and the ask on this path, if any, is closed.
    Expire(Option<Path>),
}

/// The actions of a step, and its changes: the entries used by a look-up are promoted, and the
/// pieces of an accepted reply are offered to the cache, last.
#[derive(Drop)]
pub struct Decision<'s, A: Allocator = Global> {
    pub actions: Actions<A>,
    pub used: Slots<'s, A>,
    pub change: Change<A>,
    /// The pieces, in the order of their offers.
    pub carried: Vec<Held<A>, A>,
}

impl<'s, A: Allocator + Copy> Decision<'s, A> {
    /// These actions and this change, without a look-up and an accepted reply.
    pub fn without_cache(alloc: A, actions: Actions<A>, change: Change<A>) -> Decision<'s, A>
        ensures actions { actions_of result.actions ≡ actions_of actions }
        ensures used { result.used ≡ [] }
        ensures change { result.change ≡ change }
        ensures carried { pieces_of result.carried.items ≡ [] }
    {
        Decision {
            actions,
            used: Slots::none(alloc),
            change,
            carried: Vec::new(alloc),
        }
    }
}
