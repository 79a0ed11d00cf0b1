//! What a step changes besides the lists: the moment and the cache.

ghost use Rattle.std.specs.Prelude.{◌≡◌, ◌^◌, ◌<◌, ◌≤◌, Bool, List, length};
ghost use Rattle.std.specs.List.{AllByRecursion};
ghost use Rattle.step_table.specs.AliasChains.LookingUp.{promoted_all};
ghost use Rattle.step_table.specs.AliasChains.Offering.{put_all, unkept_of, pieces_of};
ghost use Rattle.step_table.specs.Steps.{with_entries};
ghost use Rattle.client_decisions.specs.StepActions.Decision.{IsRouted};

use crate::forwarder::Forwarder;
use record_cache::Held;
use std::alloc::Allocator;
use std::hash::BuildHasher;
use step_table::chains::{Slots, offer_all, promote_all};

impl<H: BuildHasher + Drop, A: Allocator + Copy> Forwarder<H, A> {
    /// The moment has come.
    pub(crate) fn pass(&mut self, moment: u64)
        requires later { self.old.state.moment ≤ moment }
        requires in_time { moment ≤ 2 ^ 62 }
        ensures { self.new ≡ record { config = self.old.config; state = record self.old.state { moment = moment } } }
    {
        self.kept.moment = moment;
    }

    /// Promotes the entries used by a look-up, then offers the pieces of an accepted reply. Returns
    /// the number of pieces that found no memory.
    pub(crate) fn keep(&mut self, used: &Slots<'_, A>, carried: Vec<Held<A>, A>) -> u32
        requires few { length (pieces_of carried.items) < 2 ^ 32 }
        requires routed { AllByRecursion (IsRouted self.old.config) (pieces_of carried.items) }
        ensures { (rooms : List Bool) × (self.new
            ≡ record self.old {
              state = with_entries (put_all self.old.state.cache.capacity self.old.state.moment rooms
                  (pieces_of carried.items) (promoted_all used.now self.old.state.cache.entries)) self.old.state;
            })
            × (result ≡ unkept_of self.old.state.cache.capacity self.old.state.moment rooms (pieces_of carried.items)
            (promoted_all used.now self.old.state.cache.entries)) }
    {
        promote_all(&mut self.kept.cache, used);
        offer_all(&mut self.kept.cache, carried, self.kept.moment)
    }
}
