//! Laws about histories, by the definitions alone.

ghost use Rattle.step_history.specs.Laws.{FirstVersionStandsAlone, MomentsAreInTime, MomentsNeverFall};
ghost use Rattle.step_history.specs.Laws.{TriesAreTheLastOfTheEra, WhatWasCarriedStaysSo};
ghost use Rattle.step_history.specs.Laws.{EachPairIsDrawn, FewWordsDrawAPair};

/// The effective moment never falls from step to step of an era, and is at most 2^62 milliseconds.
pub fn moments_never_fall()
    ensures later { MomentsNeverFall }
    ensures in_time { MomentsAreInTime }
{}

/// The pieces carried up to a step of the era are the older part of the pieces carried up to now.
pub fn what_was_carried_stays_so()
    ensures { WhatWasCarriedStaysSo }
{}

/// If all tries of an inquiry failed, the last `tries` asks of the era for its question are closed,
/// none by an accepted reply, and the last of them in the newest step.
pub fn tries_are_the_last_of_the_era()
    ensures { TriesAreTheLastOfTheEra }
{}

/// Without a window for expired data and without a denying route, the claims are the claims of
/// version 1: no reply of the two further kinds is right.
pub fn first_version_stands_alone()
    ensures { FirstVersionStandsAlone }
{}

/// Who guesses identifier and port of a query by UDP hits with one or two of 2^32 words (RFC 5452
/// 9.2).
pub fn pairs_are_drawn_by_few_words()
    ensures few { FewWordsDrawAPair }
    ensures each { EachPairIsDrawn }
{}
