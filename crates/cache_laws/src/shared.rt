//! Definitions that claims and table share.

ghost use Rattle.cache_laws.specs.Replacing.{ReplacesExactly};
ghost use Rattle.cache_laws.specs.Serving.{DeniesNamesExactly, NoneServesExactly, ServesExactly};

/// A piece takes the place of an earlier piece exactly if it has the same name, class and type, and
/// at least its rank (RFC 2181 5.4.1). A later name error of the same name takes the place of a
/// name error, and so does a set or NODATA at or under that name (RFC 8020 2).
pub fn replaces_exactly()
    ensures { ReplacesExactly }
{}

/// The route with the longest suffix of a name, by labels, serves the name, or denies it. If no two
/// routes have the same suffix, as in each accepted configuration, there is no other such route. A
/// name that is neither served nor denied is under no route's suffix.
pub fn serves_exactly()
    ensures served { ServesExactly }
    ensures denied { DeniesNamesExactly }
    ensures neither { NoneServesExactly }
{}
