//! The fate of a question that waited for a reply with aliases to an unanswered name.

ghost use Rattle.std.specs.Prelude.{◌≡◌, ◌++◌, option_map, IfOk, MatchOption, None, Some};
ghost use Rattle.std.specs.List.{AllByRecursion};
ghost use Rattle.plain_values.specs.Borrowed.{lent};
ghost use Rattle.answer_builder.specs.Answers.{IsEarlier};
ghost use Rattle.dns_message.specs.Questions.{asked_at};
ghost use Rattle.alias_chains.specs.Looked.{chain_of};
ghost use Rattle.step_table.specs.Clients.{fate_of};
ghost use Rattle.step_table.specs.Replies.{without_port};
ghost use Rattle.step_table.specs.Steps.{waiting_in};
ghost use Rattle.reply_decisions.specs.Fates.{fate_now};

use alias_chains::LookUp;
use dns_message::{Question, QuestionRef};
use dns_name::Name;
use record_cache::Held;
use std::alloc::{AllocError, Allocator, Global};
use std::hash::BuildHasher;
use step_actions::texts::failure;
use step_actions::{Fate, StepStartRef, fate_of, redirected};
use step_values::{Action, Why};
use waiting_questions::{Onward, Waiting};

/// The aliases of a reply, and their target.
#[derive(Drop)]
pub struct AliasLead<'a, A: Allocator = Global> {
    /// The aliases, held from the moment of the reply.
    pub aliases: &'a [Held<A>],
    /// The name at the aliases' end.
    pub name: &'a Name<A>,
}

impl<'a, A: Allocator> AliasLead<'a, A> {
    /// `waiting`'s question, at the name at which the CNAMEs of this reply end.
    pub(crate) fn question(&self, waiting: &Waiting<A>) -> QuestionRef<'a>
        ensures { result ≡ asked_at waiting.now.wanted self.now.name.now }
    {
        let own = waiting.wanted();
        QuestionRef::from_octets(self.name.octets(), own.kind, own.class)
    }

    /// The aliases that a question holds, and then the aliases of the reply.
    pub(crate) fn chain(
        &self,
        alloc: A,
        waiting: &'a Waiting<A>,
    ) -> Result<Vec<&'a Held<A>, A>, AllocError>
        ensures { IfOk result (λ chain. lent chain.items ≡ waiting.now.held ++ self.now.aliases.now) }
    {
        let mut chain = Vec::new(alloc);
        put_all(&mut chain, waiting.aliases())?;
        put_all(&mut chain, self.aliases)?;
        Ok(chain)
    }
}

/// Puts pieces last, borrowed.
fn put_all<'a, A: Allocator>(
    chain: &mut Vec<&'a Held<A>, A>,
    pieces: &'a [Held<A>],
) -> Result<(), AllocError>
    ensures { IfOk result (λ _. lent chain.new.items ≡ lent chain.old.items ++ pieces.now) }
{
    for held in pieces {
        chain.push(held)?;
    }
    Ok(())
}

/// The fate of a question that waited: its reply, or the aliases and the question of its further
/// wait.
#[derive(Drop)]
pub(crate) enum WaitingFate<'a, A: Allocator = Global> {
    Reply(Action<A>),
    WaitsOn(&'a Waiting<A>, Onward<A>),
}

/// The fate of a question by its look-up, which went on after its own aliases and those of the
/// reply.
pub(crate) fn fate_after<'a, H: BuildHasher + Drop, A: Allocator + Copy>(
    start: &StepStartRef<'_, H, A>,
    waiting: &'a Waiting<A>,
    looked: &LookUp<'_, '_, A>,
) -> Result<WaitingFate<'a, A>, AllocError>
    requires { AllByRecursion (IsEarlier start.now.moment) (chain_of looked.now) }
    ensures { IfOk result (λ fate. fate_now fate
        ≡ fate_of start.now.config start.now.moment waiting.now looked.now) }
{
    let fate = fate_of(start, &waiting.request(), looked)?;
    match fate {
        Fate::Reply(action) => Ok(WaitingFate::Reply(action)),
        Fate::Waits(_) => {
            let redirected = redirected(start.alloc, looked)?;
            Ok(WaitingFate::WaitsOn(waiting, redirected))
        }
    }
}

impl<'a, A: Allocator + Copy> WaitingFate<'a, A> {
    /// The question fails if it would be sent on, since no port is free for an ask.
    pub(crate) fn without_port(self, alloc: A) -> Result<WaitingFate<'a, A>, AllocError>
        ensures { IfOk result (λ fate. fate_now fate ≡ without_port (fate_now self.entry)) }
    {
        match self {
            WaitingFate::Reply(action) => Ok(WaitingFate::Reply(action)),
            WaitingFate::WaitsOn(waiting, _) => {
                let action = failure(alloc, &waiting.request(), Why::NoPort)?;
                Ok(WaitingFate::Reply(action))
            }
        }
    }

    /// The wanted question, if the question is sent on.
    pub(crate) fn wanted(&self) -> Option<&Question<A>>
        ensures { MatchOption result (waiting_in (fate_now self.now) ≡ None)
            (λ q. option_map (λ y. y.wanted) (waiting_in (fate_now self.now)) ≡ Some q.now) }
    {
        match self {
            WaitingFate::Reply(_) => None,
            WaitingFate::WaitsOn(_, redirected) => Some(&redirected.wanted),
        }
    }
}
