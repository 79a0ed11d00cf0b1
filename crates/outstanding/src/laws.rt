//! Laws about the list.

ghost use Rattle.outstanding.specs.Laws.{EndedIsUnlisted, NextMayBegin, UnlistedStaysSo};

/// After an ask's end, a further ask for its question may take its place, as `replace` demands: the
/// new path has to be free after the end, and no listed ask may have been asked later.
pub fn next_may_begin()
    ensures { NextMayBegin }
{}

/// After an ask's end, no ask is listed on its path.
pub fn ended_is_unlisted()
    ensures { EndedIsUnlisted }
{}

/// A path without a listed ask has none after the end of any ask either.
pub fn unlisted_stays_so()
    ensures { UnlistedStaysSo }
{}
