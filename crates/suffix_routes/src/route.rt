//! Routes: a suffix, and the group of servers for the names under the suffix, or their denial.

ghost use Rattle.std.specs.Prelude.{◌≡◌, IfOk};

use crate::peer::Peer;
use dns_name::{Name, PlainList};
use std::alloc::{AllocError, Allocator, Global};
use std::marker::Model;

/// A route: names under its suffix are asked of its servers, or denied.
#[derive(Drop)]
pub struct Route<A: Allocator = Global> {
    /// The suffix.
    pub suffix: Name<A>,
    /// Whether the names are denied; nothing is asked for them.
    pub deny: bool,
    /// The group of servers in the order of the configuration, 1 to 8, or none if the route denies.
    pub servers: PlainList<Peer, A>,
}

impl<A: Allocator> Model for Route<A> {
    ghost use Rattle.suffix_routes.specs.Values.{Route, IsRoute};

    ghost Value = { Route };

    ghost view = { λ r. record { suffix = r.suffix; deny = r.deny; servers = r.servers } };

    ghost invariant = { λ r. IsRoute (record { suffix = r.suffix; deny = r.deny; servers = r.servers }) };
}

impl<A: Allocator + Copy> Route<A> {
    /// An equal route.
    pub fn copy(&self, alloc: A) -> Result<Route<A>, AllocError>
        ensures { IfOk result (λ r. r ≡ self.now) }
    {
        Ok(Route {
            suffix: self.suffix.copy(alloc)?,
            deny: self.deny,
            servers: PlainList::copied(alloc, self.servers.as_slice())?,
        })
    }
}

/// A route of a configuration, by its place among the routes, from 0. Contracts see the place.
#[derive(Clone, Copy, Debug, PartialEq, Eq, PartialOrd, Ord, Hash)]
pub struct RouteId {
    /// The place in `Config::routes`.
    pub place: usize,
}

impl Model for RouteId {
    ghost use Rattle.std.specs.Prelude.{ℕ};

    ghost Value = { ℕ };

    ghost view = { λ r. r.place };

    ghost inverse = { λ n. record { place = n } };
}
