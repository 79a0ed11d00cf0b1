//! The findings of look-ups among the entries of a cache.

ghost use Rattle.cache_laws.specs.LookUps.{LookUpsFindInOrder};

/// A look-up finds the living set of the asked type, if any, otherwise the living alias (RFC 1034
/// 3.6.2), otherwise the living NODATA of the type (RFC 2308 2.2), otherwise the nearest living
/// name error at or above the name, on its route (RFC 2308 2.1, RFC 8020 2), otherwise nothing.
pub fn look_ups_find_in_order()
    ensures { LookUpsFindInOrder }
{}
