//! The fates of all questions that waited for a reply.

ghost use Rattle.std.specs.Prelude.{◌≡◌, ◌++◌, ◌∷◌, [], map, IfOk, MatchOption, None, Some};
ghost use Rattle.std.specs.List.{AllByRecursion, flat_map};
ghost use Rattle.answer_builder.specs.Answers.{IsEarlier};
ghost use Rattle.step_table.specs.Clients.{fate_of};
ghost use Rattle.step_table.specs.Replies.{without_port};
ghost use Rattle.step_table.specs.Steps.{replies, still_waiting};
ghost use Rattle.step_values.specs.Values.{actions_of};
ghost use Rattle.reply_decisions.specs.Fates.{fate_now, first_wanted, looked_on, onward_of};

use crate::fate::{AliasLead, WaitingFate, fate_after};
use alias_chains::{Slots, look_up};
use dns_message::Question;
use record_cache::LookUpSlot;
use std::alloc::{AllocError, Allocator, Global};
use std::hash::BuildHasher;
use std::marker::Model;
use step_actions::StepStartRef;
use step_values::Actions;
use trust_rank::Slot;
use waiting_questions::{Onward, Waiting, WaitingFor};

/// The fates of questions, in the order of arrival, and the slots of the entries used by their
/// look-ups.
#[derive(Drop)]
pub struct Fates<'a, A: Allocator = Global> {
    each: Vec<WaitingFate<'a, A>, A>,
    used: Vec<Slot, A>,
}

/// In the order of arrival the aliases and the wanted question of each question that waits on, and
/// `None` of each that gets its reply; and the slots of the entries used by look-ups.
#[derive(Drop)]
pub struct FateParts<'s, A: Allocator = Global> {
    pub onward: Vec<Option<Onward<A>>, A>,
    pub used: Slots<'s, A>,
}

impl<'a, A: Allocator> Model for Fates<'a, A> {
    ghost use Rattle.std.specs.Prelude.{map};
    ghost use Rattle.reply_decisions.specs.Fates.{fate_now, Fates};

    ghost Value = { Fates };

    ghost view = { λ f. record { each = map fate_now f.each.items; used = f.used.items } };
}

/// The fates of the questions that waited for a reply which leads on: each is looked up at the name
/// that it leads to, in the cache as the step finds it, one after another.
pub fn fates_of<'a, H: BuildHasher + Drop, A: Allocator + Copy>(
    start: &StepStartRef<'_, H, A>,
    lead: &AliasLead<'_, A>,
    waiting: &WaitingFor<'a, A>,
) -> Result<Fates<'a, A>, AllocError>
    requires aliases { AllByRecursion (IsEarlier start.now.moment) lead.now.aliases.now }
    requires own { AllByRecursion (λ x. AllByRecursion (IsEarlier start.now.moment) x.held) waiting.now }
    ensures each { IfOk result (λ f. f.each ≡ map (λ x. fate_of start.now.config start.now.moment x
        (looked_on start.now lead.now.aliases.now lead.now.name.now x)) waiting.now) }
    ensures used { IfOk result (λ f. f.used
        ≡ flat_map (λ x. (looked_on start.now lead.now.aliases.now lead.now.name.now x).used) waiting.now) }
{
    let mut fates = Fates {
        each: Vec::with_capacity(start.alloc, waiting.len())?,
        used: Vec::new(start.alloc),
    };
    for place in 0..waiting.len() {
        fates.add(start, lead, waiting.get(place))?;
    }
    Ok(fates)
}

impl<'a, A: Allocator + Copy> Fates<'a, A> {
    /// Looks one more question up, and puts its fate last.
    fn add<H: BuildHasher + Drop>(
        &mut self,
        start: &StepStartRef<'_, H, A>,
        lead: &AliasLead<'_, A>,
        waiting: &'a Waiting<A>,
    ) -> Result<(), AllocError>
        requires aliases { AllByRecursion (IsEarlier start.now.moment) lead.now.aliases.now }
        requires own { AllByRecursion (IsEarlier start.now.moment) waiting.now.held }
        ensures each { IfOk result (λ _. self.new.each ≡ self.old.each ++ fate_of start.now.config start.now.moment
            waiting.now (looked_on start.now lead.now.aliases.now lead.now.name.now waiting.now) ∷ []) }
        ensures used { IfOk result (λ _. self.new.used ≡ self.old.used
            ++ (looked_on start.now lead.now.aliases.now lead.now.name.now waiting.now).used) }
    {
        let mut slot = LookUpSlot::new();
        let held = lead.chain(start.alloc, waiting)?;
        let question = lead.question(waiting);
        let looked = look_up(start.alloc, &start.cache_at(), &mut slot, held, &question)?;
        let fate = fate_after(start, waiting, &looked)?;
        self.put(fate, &looked.into_slots())
    }

    /// Puts the fate of one more question last, and the slots that its look-up used.
    fn put(&mut self, fate: WaitingFate<'a, A>, used: &Slots<'_, A>) -> Result<(), AllocError>
        ensures each { IfOk result (λ _. self.new.each ≡ self.old.each ++ fate_now fate.entry ∷ []) }
        ensures used { IfOk result (λ _. self.new.used ≡ self.old.used ++ used.now) }
    {
        self.each.push(fate)?;
        used.copy_to(&mut self.used)
    }

    /// The question that the first of those that are sent on wants, and so all of them; `None`
    /// exactly if none is sent on.
    pub fn wanted(&self) -> Option<&Question<A>>
        ensures { MatchOption result (first_wanted (still_waiting self.now.each) ≡ None)
            (λ q. first_wanted (still_waiting self.now.each) ≡ Some q.now) }
    {
        for fate in &self.each {
            if let Some(question) = fate.wanted() {
                return Some(question);
            }
        }
        None
    }

    /// These fates, but each redirected question fails: no port is free for an ask.
    pub fn without_port(self, alloc: A) -> Result<Fates<'a, A>, AllocError>
        ensures each { IfOk result (λ f. f.each ≡ map without_port self.entry.each) }
        ensures used { IfOk result (λ f. f.used ≡ self.entry.used) }
    {
        let Fates { each, used } = self;
        let mut failed = Vec::with_capacity(alloc, each.len())?;
        for fate in each {
            failed.push(fate.without_port(alloc)?)?;
        }
        Ok(Fates { each: failed, used })
    }

    /// Puts the replies last, and returns the parts.
    pub fn into_parts<'s>(
        self,
        alloc: A,
        actions: &mut Actions<A>,
    ) -> Result<FateParts<'s, A>, AllocError>
        ensures replies { IfOk result (λ parts. actions_of actions.new
            ≡ actions_of actions.old ++ replies self.entry.each) }
        ensures onward { IfOk result (λ parts. parts.onward.items ≡ map onward_of self.entry.each) }
        ensures used { IfOk result (λ parts. parts.used ≡ self.entry.used) }
    {
        let Fates { each, used } = self;
        let mut onward = Vec::with_capacity(alloc, each.len())?;
        for fate in each {
            match fate {
                WaitingFate::Reply(action) => {
                    actions.push(action)?;
                    onward.push(None)?;
                }
                WaitingFate::WaitsOn(_, redirected) => onward.push(Some(redirected))?,
            }
        }
        let used = Slots::of(used);
        Ok(FateParts { onward, used })
    }
}
