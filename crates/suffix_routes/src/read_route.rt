//! The routes of a configuration, read from a table.

ghost use Rattle.std.specs.Prelude.{◌≡◌, [], map};
ghost use Rattle.toml.specs.View.{view, table_view};
ghost use Rattle.dns_name.specs.Text.{name_in};
ghost use Rattle.suffix_routes.specs.Routes.{route_at};
ghost use Rattle.suffix_routes.specs.Reading.{Gives, suffix_name, suffix_in, servers_after, servers_in, deny_in};
ghost use Rattle.suffix_routes.specs.Reading.{group_in, route_in, routes_after, routes_in};

use crate::excerpt::Excerpt;
use crate::fault::ConfigFault;
use crate::peer::Peer;
use crate::place::Place;
use crate::route::Route;
use crate::table::{
    array_at, boolean_at, check_keys, peer_at, require, table_at, text_at, value_of,
};
use crate::version::Version;
use dns_name::{Name, NameFault, PlainList};
use std::alloc::Allocator;
use toml::{Table, Value};

/// The routes: 1 to 64.
#[tactic(auto, unfolding(crate::specs::Reading::routes_in))]
pub(crate) fn read_routes<A: Allocator + Copy>(
    alloc: A,
    table: &Table,
    version: Version,
) -> Result<PlainList<Route<A>, A>, ConfigFault>
    ensures { Gives (λ l. l) result (routes_in version (table_view table.now)) }
{
    let items = array_at(require(table, "route", Place::Routes)?, Place::Routes)?;
    if items.is_empty() {
        return Err(ConfigFault::MissingKey(Place::Routes));
    }
    if items.len() > 64 {
        return Err(ConfigFault::TooManyRoutes(items.len()));
    }
    read_each_route(alloc, items, version)
}

/// The routes, one for each item.
fn read_each_route<A: Allocator + Copy>(
    alloc: A,
    items: &[Value],
    version: Version,
) -> Result<PlainList<Route<A>, A>, ConfigFault>
    ensures { Gives (λ l. l) result (routes_after version [] (map view items.now)) }
{
    let mut routes = PlainList::new(alloc);
    for item in items {
        let route = read_route(alloc, item, version, routes.as_slice())?;
        routes.push(route)?;
    }
    Ok(routes)
}

/// Reads a route after the earlier routes.
#[tactic(auto, unfolding(crate::specs::Reading::route_in))]
fn read_route<A: Allocator + Copy>(
    alloc: A,
    value: &Value,
    version: Version,
    earlier: &[Route<A>],
) -> Result<Route<A>, ConfigFault>
    ensures { Gives (λ r. r) result (route_in version earlier.now (view value.now)) }
{
    let place = earlier.len();
    let table = table_at(value, Place::Route(place))?;
    check_keys(table, version, Place::Route(place))?;
    let suffix = read_suffix(alloc, table, earlier)?;
    let deny = read_deny(table, place)?;
    let servers = read_group(alloc, table, place, deny)?;
    Ok(Route {
        suffix,
        deny,
        servers,
    })
}

/// The suffix of a route, new among the earlier routes.
#[tactic(auto, unfolding(crate::specs::Reading::suffix_in))]
fn read_suffix<A: Allocator>(
    alloc: A,
    table: &Table,
    earlier: &[Route<A>],
) -> Result<Name<A>, ConfigFault>
    ensures { Gives (λ n. n) result (suffix_in earlier.now (table_view table.now)) }
{
    let place = earlier.len();
    let value = require(table, "suffix", Place::Suffix(place))?;
    let text = text_at(value, Place::Suffix(place))?;
    let suffix = read_name(alloc, text, place)?;
    match place_of(earlier, &suffix) {
        Some(first) => Err(ConfigFault::TwiceSuffix(place, first)),
        None => Ok(suffix),
    }
}

/// The name of a text, for the suffix of the route at this place.
fn read_name<A: Allocator>(alloc: A, text: &str, place: usize) -> Result<Name<A>, ConfigFault>
    ensures { Gives (λ n. n) result (suffix_name place text.now (name_in text.now)) }
{
    match Name::from_text(alloc, text) {
        Ok(name) => Ok(name),
        Err(NameFault::Memory) => Err(ConfigFault::Memory),
        Err(fault) => Err(ConfigFault::BadName(place, Excerpt::of(text), fault)),
    }
}

/// The place of the route with this suffix.
fn place_of<A: Allocator>(routes: &[Route<A>], name: &Name<A>) -> Option<usize>
    ensures { result ≡ route_at routes.now name.now }
{
    for (place, route) in routes.iter().enumerate() {
        let suffix = &route.suffix;
        if name.same(suffix) {
            return Some(place);
        }
    }
    None
}

/// Whether the route at this place denies; without the key `deny`, no.
#[tactic(auto, unfolding(crate::specs::Reading::deny_in))]
fn read_deny(table: &Table, route: usize) -> Result<bool, ConfigFault>
    ensures { result ≡ deny_in route (table_view table.now) }
{
    match value_of(table, "deny") {
        None => Ok(false),
        Some(value) => boolean_at(value, Place::Deny(route)),
    }
}

/// The group of the route at this place: none if the route denies, and then the key `servers` may
/// not be there.
#[tactic(auto, unfolding(crate::specs::Reading::group_in))]
fn read_group<A: Allocator + Copy>(
    alloc: A,
    table: &Table,
    route: usize,
    deny: bool,
) -> Result<PlainList<Peer, A>, ConfigFault>
    ensures { Gives (λ l. l) result (group_in deny route (table_view table.now)) }
{
    if !deny {
        return read_servers(alloc, table, route);
    }
    match value_of(table, "servers") {
        None => Ok(PlainList::new(alloc)),
        Some(_) => Err(ConfigFault::DenyWithServers(route)),
    }
}

/// The servers of the route at this place: 1 to 8.
#[tactic(auto, unfolding(crate::specs::Reading::servers_in))]
fn read_servers<A: Allocator + Copy>(
    alloc: A,
    table: &Table,
    route: usize,
) -> Result<PlainList<Peer, A>, ConfigFault>
    ensures { Gives (λ l. l) result (servers_in route (table_view table.now)) }
{
    let value = require(table, "servers", Place::Servers(route))?;
    let items = array_at(value, Place::Servers(route))?;
    if items.is_empty() {
        return Err(ConfigFault::NoServers(route));
    }
    if items.len() > 8 {
        return Err(ConfigFault::TooManyServers(route, items.len()));
    }
    read_each_server(alloc, items, route)
}

/// The servers, one for each item.
fn read_each_server<A: Allocator>(
    alloc: A,
    items: &[Value],
    route: usize,
) -> Result<PlainList<Peer, A>, ConfigFault>
    ensures { Gives (λ l. l) result (servers_after route [] (map view items.now)) }
{
    let mut servers = PlainList::new(alloc);
    for (place, item) in items.iter().enumerate() {
        let server = peer_at(item, Place::Server(route, place))?;
        servers.push(server)?;
    }
    Ok(servers)
}
