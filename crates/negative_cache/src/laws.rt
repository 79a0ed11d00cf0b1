//! Laws about look-ups.

ghost use Rattle.negative_cache.specs.Laws.{EqualQuestionsFindTheSame, EqualQuestionsFindTheSameStale, FoundFits};
ghost use Rattle.negative_cache.specs.Laws.{NearestIsFound, NothingIsFoundOfDenied, NoWindowFindsTheLiving};
ghost use Rattle.negative_cache.specs.Laws.{PromotionKeepsFound, PromotionKeepsStale};
ghost use Rattle.negative_cache.specs.Laws.{ShownIsReplaced, StaleFits};

/// A look-up finds a living entry of the list: in the slot of the question or of an alias, or a
/// name error of the name or of a name above, of the class, and within the name's route.
pub fn found_fits()
    ensures { FoundFits }
{}

/// If a living name error within the name's route denies the name, a look-up doesn't miss, and no
/// found name error is farther from the name.
pub fn nearest_is_found()
    ensures { NearestIsFound }
{}

/// The outcome of a look-up depends on no promotion, and on no spelling of the name.
pub fn found_is_settled()
    ensures promoted { PromotionKeepsFound }
    ensures spelled { EqualQuestionsFindTheSame }
{}

/// The name errors that `shown` removes, before an offer of a set or NODATA, are exactly the
/// replaced ones.
pub fn shown_is_replaced()
    ensures { ShownIsReplaced }
{}

/// A look-up of stale entries finds a set of the list in the slot of the question or of an alias,
/// within the window, and no denial.
pub fn stale_fits()
    ensures { StaleFits }
{}

/// The outcome of a look-up of stale entries depends on no promotion, and on no spelling of the
/// name. With a window of 0 the outcome is the set or alias of a look-up.
pub fn stale_is_settled()
    ensures promoted { PromotionKeepsStale }
    ensures spelled { EqualQuestionsFindTheSameStale }
    ensures living { NoWindowFindsTheLiving }
{}

/// If no entry has a denied name, a look-up of such a name misses. So a caller without such entries
/// looks at routes only after a miss.
pub fn nothing_is_found_of_denied()
    ensures { NothingIsFoundOfDenied }
{}
