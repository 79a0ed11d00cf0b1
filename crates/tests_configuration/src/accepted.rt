//! The values of accepted texts, and the defaults of missing keys.

use std::test::Fail;
use suffix_routes::{Config, Limits, Peer};

/// A configuration with the required keys alone.
const LEAST: &str = r#"version = 1
[[route]]
suffix = "."
servers = ["192.0.2.1:53"]
"#;

/// Two routes, the second for names under a suffix of the first.
const OFFICE: &str = r#"version = 1
listen = "192.0.2.7:5353"
[limits]
tries = 2
ask_ms = 100
[[route]]
suffix = "example"
servers = ["192.0.2.1:53"]
[[route]]
suffix = "corp.example"
servers = ["192.0.2.8:53", "192.0.2.9:53"]
"#;

#[test]
fn what_is_read(rt: HostRuntime) -> Result<(), Fail> {
    let heap = rt.alloc();
    let defaults = Limits {
        questions: 1024,
        inquiries: 256,
        cache: 4096,
        tries: 4,
        ask_ms: 1500,
        deadline_ms: 8000,
        stale_s: 0,
    };
    let few = Limits {
        tries: 2,
        ask_ms: 100,
        ..defaults
    };
    for (text, listen, limits, server) in [
        (LEAST, "127.0.0.1:53", defaults, "192.0.2.1:53"),
        (OFFICE, "192.0.2.7:5353", few, "192.0.2.8:53"),
    ] {
        let config = Config::read(heap, heap, text)?;
        let last = config.routes().last().ok_or("a route")?;
        let asked = last.servers.as_slice().first().ok_or("a server")?;
        assert_eq!(rt; Some(config.listen), Peer::from_text(listen));
        assert_eq!(rt; config.limits, limits);
        assert_eq!(rt; Some(*asked), Peer::from_text(server));
    }
    Ok(())
}
