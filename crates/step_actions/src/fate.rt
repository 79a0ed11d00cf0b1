//! The fate of a question after its look-up: it gets its reply, or waits.

ghost use Rattle.std.specs.Prelude.{◌≡◌, IfOk};
ghost use Rattle.std.specs.List.{AllByRecursion};
ghost use Rattle.answer_builder.specs.Answers.{IsEarlier};
ghost use Rattle.step_texts.specs.AliasChains.LookingUp.{missed};
ghost use Rattle.step_texts.specs.AliasChains.Looked.{chain_of};
ghost use Rattle.step_actions.specs.Fates.{IsFate};

use crate::step_start::StepStartRef;
use std::alloc::{AllocError, Allocator, Global};
use std::hash::BuildHasher;
use step_texts::chains::{LookUp, LookUpEnd, copies};
use step_texts::waiting::{Onward, Request};
use step_texts::{answer, failure, local_answer};
use step_values::{Action, Why};
use suffix_routes::{RouteId, Routing};

/// How a question goes on after its look-up.
#[derive(Drop)]
pub enum Fate<A: Allocator = Global> {
    Reply(Action<A>),
    /// The question waits for the wanted question of its look-up. The route serves the wanted name.
    Waits(RouteId),
}

/// The fate of a question by its look-up: an answer from the chain if the look-up ended, a failure
/// with `ChainLong` at a ninth alias, and otherwise the fate of a miss. No piece of the chain was
/// accepted after the moment.
pub fn fate_of<H: BuildHasher + Drop, A: Allocator + Copy>(
    start: &StepStartRef<'_, H, A>,
    request: &Request<'_>,
    looked: &LookUp<'_, '_, A>,
) -> Result<Fate<A>, AllocError>
    requires earlier { AllByRecursion (IsEarlier start.now.moment) (chain_of looked.now) }
    ensures { IfOk result (IsFate start.now request.now looked.now) }
{
    match looked.met() {
        LookUpEnd::Ends => {
            let action = answer(start.alloc, request, looked.chain(), start.moment)?;
            Ok(Fate::Reply(action))
        }
        LookUpEnd::TooLong => {
            let action = failure(start.alloc, request, Why::ChainLong)?;
            Ok(Fate::Reply(action))
        }
        LookUpEnd::Missed => missed(start, request, looked),
    }
}

/// The fate of a question that has no answer in the cache. It waits if the wanted name is served,
/// gets the local denial if it is denied, and otherwise fails with `NoRoute`.
fn missed<H: BuildHasher + Drop, A: Allocator + Copy>(
    start: &StepStartRef<'_, H, A>,
    request: &Request<'_>,
    looked: &LookUp<'_, '_, A>,
) -> Result<Fate<A>, AllocError>
    requires earlier { AllByRecursion (IsEarlier start.now.moment) (chain_of looked.now) }
    requires missed { looked.now.met ≡ missed }
    ensures { IfOk result (IsFate start.now request.now looked.now) }
{
    let wanted = looked.wanted();
    match start.config.routing_of_key(&wanted.key()) {
        Routing::Served(route) => Ok(Fate::Waits(route)),
        Routing::Denied => {
            let action = local_answer(start.alloc, request, looked.chain(), start.moment)?;
            Ok(Fate::Reply(action))
        }
        Routing::None => {
            let action = failure(start.alloc, request, Why::NoRoute)?;
            Ok(Fate::Reply(action))
        }
    }
}

/// Copies of the aliases held and the question wanted at the end of a look-up that missed: a
/// question waits with these.
pub fn redirected<A: Allocator + Copy>(
    alloc: A,
    looked: &LookUp<'_, '_, A>,
) -> Result<Onward<A>, AllocError>
    requires { looked.now.met ≡ missed }
    ensures { IfOk result (λ redirected. redirected
        ≡ record { held = looked.now.held; wanted = looked.now.wanted }) }
{
    let aliases = copies(alloc, looked.chain())?;
    let wanted = looked.wanted().copy(alloc)?;
    Ok(Onward { aliases, wanted })
}
