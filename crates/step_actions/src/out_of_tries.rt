//! The last reply to a question without a try left: from a stale set if there is one, otherwise
//! that all tries failed.

ghost use Rattle.std.specs.Prelude.{◌≡◌, ◌∷◌, ◌++◌, [], IfOk, option_map};
ghost use Rattle.std.specs.List.{AllByRecursion};
ghost use Rattle.std.specs.Option.{IfSome};
ghost use Rattle.answer_builder.specs.Answers.{IsEarlier};
ghost use Rattle.plain_values.specs.Borrowed.{lent};
ghost use Rattle.record_cache.specs.Laws.{Among};
ghost use Rattle.step_values.specs.Values.{action_of, actions_of};
ghost use Rattle.step_texts.specs.StepTable.Steps.{closes};
ghost use Rattle.step_texts.specs.StepTable.Failures.{found_stale, runs_out, with_stale_ttl};
ghost use Rattle.step_actions.specs.Decision.{with_replies};

use crate::replies::close_path;
use crate::step_start::StepStartRef;
use dns_message::QuestionRef;
use outstanding::KeyedAsk;
use record_cache::Held;
use std::alloc::{AllocError, Allocator};
use std::hash::BuildHasher;
use step_texts::chains::look_up_stale;
use step_texts::waiting::Waiting;
use step_texts::{failure, stale_answer};
use step_values::{Action, Actions, Why};
use trust_rank::MOST_ALIASES;

/// Closes the ask, whose question has no try left; each question waiting for it gets its last
/// reply.
pub fn last_replies<'a, H: BuildHasher + Drop, A: Allocator + Copy>(
    start: &StepStartRef<'a, H, A>,
    ask: &KeyedAsk<A>,
) -> Result<Actions<A>, AllocError>
    ensures { IfOk result (λ actions. actions_of actions ≡ with_replies
        (runs_out start.now.config start.now.moment start.now.state.cache.entries ask.now.question)
        (closes ask.now.path ∷ []) start.now.state.waiting) }
{
    let mut actions = Actions::one(start.alloc, close_path(ask.ask().path));
    let those = start.kept.waiting.for_ask(ask);
    for place in 0..those.len() {
        put_last(start, &mut actions, those.get(place))?;
    }
    Ok(actions)
}

/// Puts the last reply to a question last.
fn put_last<'a, H: BuildHasher + Drop, A: Allocator + Copy>(
    start: &StepStartRef<'a, H, A>,
    actions: &mut Actions<A>,
    waiting: &Waiting<A>,
) -> Result<(), AllocError>
    requires { AllByRecursion (IsEarlier start.now.moment) waiting.now.held }
    ensures { IfOk result (λ _. actions_of actions.new ≡ actions_of actions.old ++ with_stale_ttl start.now.moment
        waiting.now (found_stale start.now.config start.now.moment start.now.state.cache.entries waiting.now) ∷ []) }
{
    let action = last_reply(start, waiting)?;
    actions.push(action)
}

/// The last reply to a question.
fn last_reply<'a, H: BuildHasher + Drop, A: Allocator + Copy>(
    start: &StepStartRef<'a, H, A>,
    waiting: &Waiting<A>,
) -> Result<Action<A>, AllocError>
    requires { AllByRecursion (IsEarlier start.now.moment) waiting.now.held }
    ensures { IfOk result (λ action. action_of action ≡ with_stale_ttl start.now.moment waiting.now
        (found_stale start.now.config start.now.moment start.now.state.cache.entries waiting.now)) }
{
    let request = waiting.request();
    match found_stale(start, waiting)? {
        Some(found) => stale_answer(
            start.alloc,
            &request,
            waiting.aliases(),
            &found,
            start.moment,
        ),
        None => failure(start.alloc, &request, Why::Exhausted),
    }
}

/// The entries for a question, alive or expired within the configured window: aliases, as many as
/// the question may still take, and a set. Without a window nothing is looked up.
fn found_stale<'a, H: BuildHasher + Drop, A: Allocator + Copy>(
    start: &StepStartRef<'a, H, A>,
    waiting: &Waiting<A>,
) -> Result<Option<Vec<&'a Held<A>, A>>, AllocError>
    ensures exact { IfOk result (λ found. option_map (λ f. lent f.items) found
        ≡ found_stale start.now.config start.now.moment start.now.state.cache.entries waiting.now) }
    ensures from_cache { IfOk result
        (λ found. IfSome found (λ f. AllByRecursion (λ h. Among h start.now.state.cache.entries) (lent f.items))) }
{
    let config = start.config;
    let window = config.limits.stale_s;
    if window == 0 {
        return Ok(None);
    }
    let most = MOST_ALIASES.saturating_sub(waiting.aliases().len());
    let question = QuestionRef::of(waiting.wanted());
    look_up_stale(
        start.alloc,
        &start.cache_at(),
        &question,
        u64::from(window),
        most,
    )
}
