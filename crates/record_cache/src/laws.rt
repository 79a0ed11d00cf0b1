//! Laws about the cache.

ghost use Rattle.record_cache.specs.Laws.{KeptIsFound, NoAliasIsThere, NoneDenies, NoneOfSize, OfferedStay};
ghost use Rattle.record_cache.specs.Laws.{OneSlotIsTheSame, OthersStay, PromotedAreFound, PromotedStay, UnkeptIsNew};

/// The piece kept last is found by `peek`.
pub fn kept_is_found()
    ensures { KeptIsFound }
{}

/// An offer is `Unkept` only if its slot has no entry.
pub fn unkept_is_new()
    ensures { UnkeptIsNew }
{}

/// An entry goes only by an offer of its slot or by `forget`, as the last of a full cache for a new
/// slot, or by `clear`.
pub fn gone_only_so()
    ensures offered { OfferedStay }
    ensures forgotten { OthersStay }
    ensures promoted { PromotedStay }
{}

/// A promotion changes no look-up.
pub fn promotion_changes_no_look_up()
    ensures { PromotedAreFound }
{}

/// Slots are equal exactly if they have the same name, class and type in the sense of the rest of
/// the forwarder.
pub fn one_slot_is_the_same()
    ensures { OneSlotIsTheSame }
{}

/// If no name error has the size of a name, the name has no name error; if none may deny the name,
/// neither the name nor any name above has one; and if there may be no alias, the name has no entry
/// of type CNAME.
pub fn counts_tell_what_is_there()
    ensures size { NoneOfSize }
    ensures denial { NoneDenies }
    ensures alias { NoAliasIsThere }
{}
