//! Laws about look-ups along aliases.

ghost use Rattle.alias_chains.specs.Laws.{SameAreLookedUpAlike};

/// Questions that differ by letter case alone are looked up alike. They take the same aliases, end
/// alike and want the same question, spelled alike after an alias.
pub fn same_questions_are_looked_up_alike()
    ensures { SameAreLookedUpAlike }
{}
