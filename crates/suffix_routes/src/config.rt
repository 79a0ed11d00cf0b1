//! The configuration of a forwarder, and the route of a name.

ghost use Rattle.std.specs.Prelude.{◌≡◌, IfOk};
ghost use Rattle.suffix_routes.specs.Values.{IsConfig};
ghost use Rattle.suffix_routes.specs.Routes.{IsAnswer, denies, route_of, serving};
ghost use Rattle.suffix_routes.specs.Serving.{denied_by, is_local, served_by, serving_route_of};

use crate::limits::Limits;
use crate::peer::Peer;
use crate::route::{Route, RouteId};
use crate::routing::Routing;
use dns_name::{Name, NameKey, PlainList};
use std::alloc::{AllocError, Allocator, Global};
use std::marker::Model;

/// An accepted configuration: limits in range, 1 to 64 routes, each with 1 to 8 servers, or none if
/// denying, and no two suffixes are equal names.
#[derive(Drop)]
pub struct Config<A: Allocator = Global> {
    /// The address for clients, over UDP and TCP.
    pub listen: Peer,
    /// The limits.
    pub limits: Limits,
    /// The routes, in the order of the configuration.
    pub routes: PlainList<Route<A>, A>,
}

impl<A: Allocator> Model for Config<A> {
    ghost use Rattle.suffix_routes.specs.Values.{Config, IsConfig};

    ghost Value = { Config };

    ghost view = { λ c. record { listen = c.listen; limits = c.limits; routes = c.routes } };

    ghost invariant = { λ c. IsConfig (record { listen = c.listen; limits = c.limits; routes = c.routes }) };
}

impl<A: Allocator> Config<A> {
    /// The routes, in the order of the configuration. The clauses state the facts about accepted
    /// configurations.
    pub fn routes(&self) -> &[Route<A>]
        ensures routes { result.now ≡ self.now.routes }
        ensures accepted { IsConfig self.now }
    {
        self.routes.as_slice()
    }

    /// The route of a name, by the suffix with the most labels above the name; `None` if no suffix
    /// is above the name.
    pub fn route_of(&self, name: &Name<A>) -> Option<RouteId>
        ensures longest { IsAnswer self.now.routes name.now result }
        ensures computed { result ≡ route_of self.now.routes name.now }
    {
        self.route_of_key(&name.key())
    }

    /// The route of the names with this key, as `route_of`.
    pub fn route_of_key(&self, key: &NameKey) -> Option<RouteId>
        ensures longest { IsAnswer self.now.routes key.now result }
        ensures computed { result ≡ route_of self.now.routes key.now }
    {
        longest(self.routes(), key)
    }

    /// Looks up the longest suffix above a name: `Served(route)`, `Denied` or `None`.
    pub fn routing(&self, name: &Name<A>) -> Routing
        ensures served { served_by result ≡ serving_route_of self.now name.now }
        ensures denied { denied_by result ≡ is_local self.now name.now }
    {
        self.routing_on(self.route_of(name))
    }

    /// The routing of the names with this key, as `routing`.
    pub fn routing_of_key(&self, key: &NameKey) -> Routing
        ensures served { served_by result ≡ serving_route_of self.now key.now }
        ensures denied { denied_by result ≡ is_local self.now key.now }
    {
        self.routing_on(self.route_of_key(key))
    }

    /// The routing of the names of this route, or of names without a route.
    fn routing_on(&self, found: Option<RouteId>) -> Routing
        ensures served { served_by result ≡ serving self.now.routes found }
        ensures denied { denied_by result ≡ denies self.now.routes found }
    {
        let Some(id) = found else {
            return Routing::None;
        };
        match self.routes().get(id.place) {
            Some(route) if route.deny => Routing::Denied,
            Some(_) => Routing::Served(id),
            None => Routing::None,
        }
    }
}

/// The place of the longest suffix above the key's name.
fn longest<A: Allocator>(routes: &[Route<A>], key: &NameKey) -> Option<RouteId>
    ensures { IsAnswer routes.now key.now result }
{
    let mut found = None;
    let mut size = 0;
    for (place, route) in routes.iter().enumerate() {
        let suffix = &route.suffix;
        let octets = suffix.octets().len();
        if size <= octets && key.is_under(suffix) {
            found = Some(RouteId { place });
            size = octets + 1;
        }
    }
    found
}

impl<A: Allocator + Copy> Config<A> {
    /// An equal configuration.
    pub fn copy(&self, alloc: A) -> Result<Config<A>, AllocError>
        ensures { IfOk result (λ c. c ≡ self.now) }
    {
        Ok(Config {
            listen: self.listen,
            limits: self.limits,
            routes: copies(alloc, self.routes())?,
        })
    }
}

/// Copies of the routes, in their order.
fn copies<A: Allocator + Copy>(
    alloc: A,
    routes: &[Route<A>],
) -> Result<PlainList<Route<A>, A>, AllocError>
    ensures { IfOk result (λ l. l ≡ routes.now) }
{
    let mut copies = PlainList::new(alloc);
    for route in routes {
        copies.push(route.copy(alloc)?)?;
    }
    Ok(copies)
}
