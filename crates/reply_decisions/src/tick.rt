//! The decision on passing time: the oldest question or the oldest ask, if due.

ghost use Rattle.std.specs.Prelude.{◌≡◌, Bool, List, ◌^◌, ◌≤◌, false, IfOk, Some, drop, slice_get};
ghost use Rattle.step_table.specs.Row.{is_due_at};
ghost use Rattle.step_table.specs.Ticks.{expiry_step, left_alone, row_of_tick};
ghost use Rattle.step_actions.specs.Decision.{closed_path, IsQuiet, MeetsStep};
ghost use Rattle.step_table.specs.State.{start};

use crate::attempt::fail;
use outstanding::{Path, QuestionKey};
use retry_failover::Failure;
use std::alloc::{AllocError, Allocator};
use std::hash::BuildHasher;
use step_actions::texts::failure;
use step_actions::{Change, Decision, Oldest, StepStartRef, close_paths, first_due, nothing};
use step_values::Why;
use waiting_questions::Waiting;

/// Decides on passing time, for the oldest question or the oldest ask, whichever is due first.
pub fn on_tick<'s, H: BuildHasher + Drop, A: Allocator + Copy>(
    start: &StepStartRef<'_, H, A>,
) -> Result<Decision<'s, A>, AllocError>
    ensures decides { IfOk result (MeetsStep start.now (row_of_tick start.now)) }
    ensures early { is_due_at start.now.config start.now.moment start.now.state ≡ false → IsQuiet result }
{
    let Some(due) = first_due(start.config, &start.kept.waiting, &start.kept.inquiries) else {
        return Ok(nothing(start));
    };
    if start.moment < due.moment {
        return Ok(nothing(start));
    }
    match due.oldest {
        Oldest::Question(oldest) => expire(start, oldest),
        Oldest::Ask(oldest) => fail(start, oldest, Failure::TimedOut),
    }
}

/// Decides that the oldest question has reached its deadline. Its ask is closed if no further
/// question waits for it.
fn expire<'s, H: BuildHasher + Drop, A: Allocator + Copy>(
    start: &StepStartRef<'_, H, A>,
    oldest: &Waiting<A>,
) -> Result<Decision<'s, A>, AllocError>
    requires { slice_get start.now.state.waiting 0 ≡ Some oldest.now }
    ensures decides { IfOk result (MeetsStep start.now (expiry_step start.now.moment oldest.now
        (drop 1 start.now.state.waiting) (left_alone oldest.now.wanted
        (drop 1 start.now.state.waiting) start.now.state.asks) start.now.state)) }
{
    let closed = left_alone(start, oldest);
    let mut actions = close_paths(start.alloc, closed);
    let action = failure(start.alloc, &oldest.request(), Why::Deadline)?;
    actions.push(action)?;
    Ok(Decision::without_cache(start.alloc, actions, Change::Expire(closed)))
}

/// The path of the oldest question's ask, if no further question waits for it.
fn left_alone<H: BuildHasher + Drop, A: Allocator + Copy>(
    start: &StepStartRef<'_, H, A>,
    oldest: &Waiting<A>,
) -> Option<Path>
    ensures { result ≡ closed_path (left_alone oldest.now.wanted
        (drop 1 start.now.state.waiting) start.now.state.asks) }
{
    if start.kept.waiting.is_any_other_for(oldest.wanted()) {
        return None;
    }
    let key = QuestionKey::of(oldest.wanted());
    match start.kept.inquiries.by_question(&key) {
        Some(ask) => Some(ask.path),
        None => None,
    }
}
