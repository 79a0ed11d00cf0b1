//! The moments from which asks and questions are due, and the first of them.

ghost use Rattle.std.specs.Prelude.{◌≡◌, ◌≤◌, ◌<◌, ◌^◌, [], nat_lt, MatchOption};
ghost use Rattle.std.specs.List.{AllByRecursion};
ghost use Rattle.suffix_routes.specs.Values.{IsConfig};
ghost use Rattle.step_texts.specs.StepTable.Progress.{AreTakenInTurn};
ghost use Rattle.step_texts.specs.StepTable.Replies.{timeout_of};
ghost use Rattle.step_texts.specs.StepTable.Ticks.{deadline_of};
ghost use Rattle.step_actions.specs.Due.{IsDueFirst};

use outstanding::{Ask, Inquiries, KeyedAsk};
use std::alloc::{Allocator, Global};
use step_texts::waiting::{Waiting, WaitingQuestions};
use suffix_routes::Config;

/// The oldest question, or the oldest ask.
#[derive(Drop)]
pub enum Oldest<'a, A: Allocator = Global> {
    Question(&'a Waiting<A>),
    Ask(&'a KeyedAsk<A>),
}

/// The question or the ask that is due first.
#[derive(Drop)]
pub struct Due<'a, A: Allocator = Global> {
    pub oldest: Oldest<'a, A>,
    /// The moment from which it is due, in milliseconds.
    pub moment: u64,
}

/// Whether a delivery at this moment, in milliseconds, is in time for the ask.
pub fn is_live<A: Allocator>(config: &Config<A>, moment: u64, ask: &Ask<A>) -> bool
    requires { timeout_of config.now ask.now < 2 ^ 64 }
    ensures { result ≡ nat_lt moment (timeout_of config.now ask.now) }
{
    moment < timeout(config, ask)
}

/// The question or the ask that is due first: at equal moments the question. `None` exactly if
/// nothing waits and no ask is listed. Both lists are in the order of time, so the oldest of each
/// decide.
pub fn first_due<'a, A: Allocator>(
    config: &Config<A>,
    waiting: &'a WaitingQuestions<A>,
    inquiries: &'a Inquiries<A>,
) -> Option<Due<'a, A>>
    requires limits { IsConfig config.now }
    requires in_turn { AreTakenInTurn waiting.now.items }
    requires taken { AllByRecursion (λ x. x.taken ≤ 2 ^ 62) waiting.now.items }
    ensures { MatchOption result ((waiting.now.items ≡ []) × (inquiries.now.asks ≡ []))
        (IsDueFirst config.now waiting.now.items inquiries.now.asks) }
{
    match (waiting.first(), inquiries.oldest()) {
        (None, None) => None,
        (Some(question), None) => Some(Due {
            oldest: Oldest::Question(question),
            moment: deadline(config, question),
        }),
        (None, Some(ask)) => Some(Due {
            oldest: Oldest::Ask(ask),
            moment: timeout(config, ask.ask()),
        }),
        (Some(question), Some(ask)) => {
            let deadline = deadline(config, question);
            let timeout = timeout(config, ask.ask());
            if deadline <= timeout {
                Some(Due {
                    oldest: Oldest::Question(question),
                    moment: deadline,
                })
            } else {
                Some(Due {
                    oldest: Oldest::Ask(ask),
                    moment: timeout,
                })
            }
        }
    }
}

/// The moment from which a reply to the ask is late, in milliseconds.
fn timeout<A: Allocator>(config: &Config<A>, ask: &Ask<A>) -> u64
    requires { timeout_of config.now ask.now < 2 ^ 64 }
    ensures { result ≡ timeout_of config.now ask.now }
{
    ask.asked + config.limits.ask_ms
}

/// The moment from which the question has waited as long as it may, in milliseconds.
fn deadline<A: Allocator>(config: &Config<A>, waiting: &Waiting<A>) -> u64
    requires { deadline_of config.now waiting.now < 2 ^ 64 }
    ensures { result ≡ deadline_of config.now waiting.now }
{
    waiting.taken + config.limits.deadline_ms
}
