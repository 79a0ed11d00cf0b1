//! The law: a configuration of version 1 has nothing of version 2.

ghost use Rattle.suffix_routes.specs.Laws.{FirstVersionHasNeither, NothingIsDenied};

/// The configuration of a text of version 1 has a window of 0 seconds for stale answers, and no
/// denying route.
pub fn first_version_has_neither()
    ensures { FirstVersionHasNeither }
{}

/// If no route denies, each name is served by its route, and none is denied.
pub fn nothing_is_denied()
    ensures { NothingIsDenied }
{}
