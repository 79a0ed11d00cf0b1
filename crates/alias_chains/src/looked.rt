//! The outcome of a look-up along aliases.

ghost use Rattle.std.specs.Prelude.{◌≡◌, ◌≤◌, length};
ghost use Rattle.plain_values.specs.Borrowed.{lent};
ghost use Rattle.alias_chains.specs.LookingUp.{missed};
ghost use Rattle.alias_chains.specs.Looked.{chain_of, kind_of};

use crate::chain::Chain;
use crate::slots::Slots;
use dns_message::QuestionRef;
use negative_cache::Held;
use std::alloc::{Allocator, Global};
use std::marker::Model;

/// The end of a look-up.
#[derive(Clone, Copy, Debug, PartialEq, Eq)]
pub enum LookUpEnd {
    /// A set or a denial.
    Ends,
    /// One alias too many.
    TooLong,
    /// A name without a living entry.
    Missed,
}

/// The outcome of a look-up: the aliases held at its end, the question wanted then, the kind of its
/// end, and the slots of the used entries.
#[derive(Drop)]
pub struct LookUp<'a, 's, A: Allocator = Global> {
    pub(crate) chain: Chain<'a, A>,
    pub(crate) wanted: QuestionRef<'a>,
    pub(crate) met: LookUpEnd,
    pub(crate) used: Slots<'s, A>,
}

impl<'a, 's, A: Allocator> Model for LookUp<'a, 's, A> {
    ghost use Rattle.alias_chains.specs.LookingUp.{LookUp};
    ghost use Rattle.alias_chains.specs.Looked.{looked_so, pieces_in, IsWhole};

    ghost Value = { LookUp };

    ghost view = { λ l. looked_so l.met (pieces_in l.chain) l.wanted l.used };

    ghost invariant = { λ l. IsWhole l.met (pieces_in l.chain) };
}

impl<'a, 's, A: Allocator> LookUp<'a, 's, A> {
    /// How it ended.
    pub fn met(&self) -> LookUpEnd
        ensures { result ≡ kind_of self.now.met }
    {
        self.met
    }

    /// The aliases, and after them the set or the denial at the end of the look-up, if any. A
    /// look-up that found nothing at its end has at most eight aliases.
    pub fn chain(&self) -> &[&'a Held<A>]
        ensures chain { lent result.now ≡ chain_of self.now }
        ensures few { self.now.met ≡ missed → length self.now.held ≤ 8 }
    {
        self.chain.as_slice()
    }

    /// The question wanted at the end of the look-up: without an alias the client's, otherwise the
    /// question at the target of the last alias.
    pub fn wanted(&self) -> &QuestionRef<'a>
        ensures { result.now ≡ self.now.wanted }
    {
        &self.wanted
    }

    /// The slots of the used entries, in order.
    pub fn into_slots(self) -> Slots<'s, A>
        ensures { result ≡ self.entry.used }
    {
        let LookUp {
            chain: _,
            wanted: _,
            met: _,
            used,
        } = self;
        used
    }
}
