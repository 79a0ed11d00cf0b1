//! The routing of a name by a configuration.

use crate::route::RouteId;

/// The routing of a name, by its route: the one of the longest suffix that the name is under.
#[derive(Clone, Copy, Debug)]
pub enum Routing {
    /// The servers of this route are asked for the name.
    Served(RouteId),
    /// The route denies the name: by the configuration there is no such name (RFC 6761 6.4).
    Denied,
    /// The name is under no suffix.
    None,
}
