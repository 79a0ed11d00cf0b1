//! A configuration's routing of names: served, denied, or without a route.

use dns_name::Name;
use std::test::Fail;
use suffix_routes::{Config, Routing};

/// A route for an office's names, and a route denying some.
const TEXT: &str = r#"version = 2
[[route]]
suffix = "example"
servers = ["192.0.2.8:53"]
[[route]]
suffix = "Gone.example"
deny = true
"#;

/// Whether routing by name and by key agree: the route's place, `Some(9)` for a denial, or `None`.
fn is_routed(config: &Config, name: &Name, place: Option<usize>) -> bool {
    place_of(config.routing(name)) == place && place_of(config.routing_of_key(&name.key())) == place
}

/// The serving route's place, 9 for a denial.
fn place_of(routing: Routing) -> Option<usize> {
    match routing {
        Routing::Served(route) => Some(route.place),
        Routing::Denied => Some(9),
        Routing::None => None,
    }
}

#[test]
fn names_are_routed(rt: HostRuntime) -> Result<(), Fail> {
    let heap = rt.alloc();
    let config = Config::read(heap, heap, TEXT)?;
    let served = Name::from_text(heap, "WWW.Example")?;
    let denied = Name::from_text(heap, "www.gone.EXAMPLE")?;
    let unrouted = Name::from_text(heap, "gone.test")?;
    assert!(rt; is_routed(&config, &served, Some(0)));
    assert!(rt; is_routed(&config, &denied, Some(9)));
    assert!(rt; is_routed(&config, &unrouted, None));
    Ok(())
}
