//! The slots of used entries, apart from the cache.

ghost use Rattle.std.specs.Prelude.{◌≡◌, ◌∷◌, ◌++◌, [], IfOk};
ghost use Rattle.alias_chains.specs.LookingUp.{promoted_all};

use negative_cache::{Cache, LookUpSlot};
use std::alloc::{AllocError, Allocator, Global};
use std::hash::BuildHasher;
use std::marker::Model;
use trust_rank::Slot;

/// Slots in order. The first may be borrowed from the caller of a look-up, so that one alone does
/// not allocate.
#[derive(Drop)]
pub struct Slots<'s, A: Allocator = Global> {
    lent: Option<&'s LookUpSlot>,
    others: Vec<Slot, A>,
}

impl<'s, A: Allocator> Model for Slots<'s, A> {
    ghost use Rattle.std.specs.Prelude.{List};
    ghost use Rattle.trust_rank.specs.declared.slot.Slot.{Slot};
    ghost use Rattle.alias_chains.specs.Looked.{lent_and_others};

    ghost Value = { List Slot };

    ghost view = { λ s. lent_and_others s.lent s.others.items };
}

impl<'s, A: Allocator> Slots<'s, A> {
    /// No slot.
    pub fn none(alloc: A) -> Slots<'s, A>
        ensures { result ≡ [] }
    {
        Slots::of(Vec::new(alloc))
    }

    /// This slot alone, borrowed.
    pub(crate) fn one(alloc: A, slot: &'s LookUpSlot) -> Slots<'s, A>
        ensures { result ≡ slot.now ∷ [] }
    {
        Slots {
            lent: Some(slot),
            others: Vec::new(alloc),
        }
    }

    /// These slots.
    pub fn of(slots: Vec<Slot, A>) -> Slots<'s, A>
        ensures { result ≡ slots.items }
    {
        Slots {
            lent: None,
            others: slots,
        }
    }

    /// Puts copies of the slots last.
    pub fn copy_to(&self, slots: &mut Vec<Slot, A>) -> Result<(), AllocError>
        ensures { IfOk result (λ _. slots.new.items ≡ slots.old.items ++ self.now) }
    {
        if let Some(slot) = self.lent {
            slots.push(*slot.slot())?;
        }
        for slot in &self.others {
            slots.push(*slot)?;
        }
        Ok(())
    }
}

/// Makes the entries of these slots the most recently used, one after another.
pub fn promote_all<H: BuildHasher + Drop, A: Allocator + Copy>(
    cache: &mut Cache<H, A>,
    slots: &Slots<'_, A>,
)
    ensures { cache.new ≡ record cache.old { entries = promoted_all slots.now cache.old.entries } }
{
    if let Some(slot) = slots.lent {
        cache.promote_found(slot);
    }
    for slot in &slots.others {
        cache.promote(slot);
    }
}
