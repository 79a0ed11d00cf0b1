//! A run over a list of moments, words and events.

ghost use Rattle.std.specs.Prelude.{◌≡◌, map, IfOk};
ghost use Rattle.step_table.specs.State.{State};
ghost use Rattle.step_table.specs.Steps.{initial};
ghost use Rattle.serving_loop.specs.TheoremSound.Runs.{Run};
ghost use Rattle.serving_loop.specs.TheoremUse.Service.{ServesTruly};

use lru::DefaultHasher;
use serving_loop::Forwarder;
use std::alloc::{AllocError, Allocator};
use step_values::{Step, StepInput};
use suffix_routes::Config;

/// The steps of a new forwarder with these inputs in order.
pub fn run_list<A: Allocator + Copy>(
    alloc: A,
    config: &Config<A>,
    input: &[StepInput<A>],
) -> Result<Vec<Step<A>, A>, AllocError>
    ensures input { IfOk result (λ steps. map (λ s. s.input) steps.items ≡ input.now) }
    ensures run { IfOk result (λ steps. (last : State)
        × Run config.now (initial config.now) steps.items last) }
    // With one list of owners of the replies: each reply is right for its owner's question. Each
    // step reports whether more is due, and the questions without a reply are no more than may
    // wait. The listed asks are apart, each goes to a right server, and each is wanted by a waiting
    // question, which wants no further ask. Each question for which enough data stands is answered
    // by its own step, if the cache has room.
    ensures truly { IfOk result (λ steps. ServesTruly config.now steps.items) }
{
    let own = config.copy(alloc)?;
    let mut forwarder = Forwarder::new(alloc, own, DefaultHasher::default())?;
    let mut steps = Vec::new(alloc);
    for entry in input {
        let entry = entry.copy(alloc)?;
        let outcome = forwarder.step(entry.now, entry.words, &entry.event)?;
        steps.push(Step {
            input: entry,
            outcome,
        })?;
    }
    Ok(steps)
}
