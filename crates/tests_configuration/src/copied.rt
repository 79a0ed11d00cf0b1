//! The values of a text of version 2, and an equal copy of each part.

use std::test::Fail;
use suffix_routes::{Config, Peer, Route};

/// A serving route with two servers, and a denying route.
const TEXT: &str = r#"version = 2
listen = "192.0.2.7:5353"
[limits]
tries = 2
stale_s = 86400
[[route]]
suffix = "."
servers = ["192.0.2.8:53", "192.0.2.9:53"]
[[route]]
suffix = "Lan"
deny = true
"#;

/// Whether two routes have equal parts, the suffix letter for letter.
fn are_equal(one: &Route, other: &Route) -> bool {
    one.suffix.octets() == other.suffix.octets()
        && one.deny == other.deny
        && one.servers.as_slice() == other.servers.as_slice()
}

/// Whether the routes at a place are equal.
fn are_equal_at(one: &Config, other: &Config, place: usize) -> bool {
    match (one.routes().get(place), other.routes().get(place)) {
        (Some(one), Some(other)) => are_equal(one, other),
        _ => false,
    }
}

#[test]
fn a_copy_is_equal(rt: HostRuntime) -> Result<(), Fail> {
    let heap = rt.alloc();
    let config = Config::read(heap, heap, TEXT)?;
    let copy = config.copy(heap)?;
    assert_eq!(rt; copy.listen, config.listen);
    assert_eq!(rt; copy.limits, config.limits);
    assert_eq!(rt; copy.routes().len(), 2);
    assert!(rt; are_equal_at(&copy, &config, 0));
    assert!(rt; are_equal_at(&copy, &config, 1));
    Ok(())
}

#[test]
fn what_is_read(rt: HostRuntime) -> Result<(), Fail> {
    let heap = rt.alloc();
    let config = Config::read(heap, heap, TEXT)?;
    let first = config.routes().first().ok_or("a route")?;
    let last = config.routes().last().ok_or("a route")?;
    let server = first.servers.as_slice().last().ok_or("a server")?;
    assert_eq!(rt; config.limits.stale_s, 86_400);
    assert_eq!(rt; (first.deny, last.deny), (false, true));
    assert_eq!(rt; Some(*server), Peer::from_text("192.0.2.9:53"));
    assert_eq!(rt; last.servers.as_slice().len(), 0);
    assert_eq!(rt; last.suffix.octets(), b"\x03Lan".as_slice());
    Ok(())
}
