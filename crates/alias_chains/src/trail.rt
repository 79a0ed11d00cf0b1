//! A look-up on its way, after the first alias.

ghost use Rattle.std.specs.Prelude.{◌≡◌, ◌∷◌, ◌++◌, [], IfOk};
ghost use Rattle.dns_name.specs.Labels.{labels_of, IsLaidOut};
ghost use Rattle.dns_message.specs.Questions.{asked_at};
ghost use Rattle.plain_values.specs.Borrowed.{lent};
ghost use Rattle.alias_chains.specs.LookingUp.{ends};
ghost use Rattle.alias_chains.specs.Looked.{looked_so, IsWhole};

use crate::chain::Chain;
use crate::looked::{LookUp, LookUpEnd};
use crate::slots::Slots;
use dns_message::QuestionRef;
use negative_cache::Held;
use std::alloc::{AllocError, Allocator, Global};
use trust_rank::Slot;

/// The aliases held so far, the slots of the aliases from the cache, and the question wanted now.
#[derive(Drop)]
pub(crate) struct Trail<'a, A: Allocator = Global> {
    pub(crate) held: Vec<&'a Held<A>, A>,
    pub(crate) used: Vec<Slot, A>,
    pub(crate) wanted: QuestionRef<'a>,
}

impl<'a, A: Allocator> Trail<'a, A> {
    /// The beginning, for a question that holds these aliases.
    pub(crate) fn new(
        alloc: A,
        held: Vec<&'a Held<A>, A>,
        question: &QuestionRef<'a>,
    ) -> Trail<'a, A>
        ensures held { result.held ≡ held.entry }
        ensures used { result.used.items ≡ [] }
        ensures wanted { result.wanted ≡ question.now }
    {
        Trail {
            held,
            used: Vec::new(alloc),
            wanted: question.reborrow(),
        }
    }

    /// Takes an alias. The octets are the name of its target.
    pub(crate) fn take(&mut self, alias: &'a Held<A>, target: &'a [u8]) -> Result<(), AllocError>
        requires { IsLaidOut target.now }
        ensures held { IfOk result (λ _. lent self.new.held.items ≡ lent self.old.held.items ++ alias.now ∷ []) }
        ensures used { IfOk result (λ _. self.new.used.items ≡ self.old.used.items ++ alias.now.piece.slot ∷ []) }
        ensures wanted { IfOk result (λ _. self.new.wanted ≡ asked_at self.old.wanted (labels_of target.now)) }
    {
        self.held.push(alias)?;
        self.used.push(alias.piece.slot())?;
        let kind = self.wanted.kind();
        let class = self.wanted.class();
        self.wanted = QuestionRef::from_octets(target, kind, class);
        Ok(())
    }

    /// The look-up that ends here without a set or a denial.
    pub(crate) fn stopped<'s>(self, met: LookUpEnd) -> LookUp<'a, 's, A>
        requires { IsWhole met (lent self.held.items) }
        ensures { result ≡ looked_so met (lent self.entry.held.items) self.entry.wanted self.entry.used.items }
    {
        let Trail { held, used, wanted } = self;
        LookUp {
            chain: Chain::More(held),
            wanted,
            met,
            used: Slots::of(used),
        }
    }

    /// The look-up that ends with this set or denial.
    pub(crate) fn ended<'s>(self, end: &'a Held<A>) -> Result<LookUp<'a, 's, A>, AllocError>
        ensures { IfOk result (λ looked. looked ≡ record {
          held = lent self.entry.held.items;
          wanted = self.entry.wanted;
          met = ends end.now;
          used = self.entry.used.items ++ end.now.piece.slot ∷ [];
        }) }
    {
        let Trail {
            mut held,
            mut used,
            wanted,
        } = self;
        held.push(end)?;
        used.push(end.piece.slot())?;
        Ok(LookUp {
            chain: Chain::More(held),
            wanted,
            met: LookUpEnd::Ends,
            used: Slots::of(used),
        })
    }
}
