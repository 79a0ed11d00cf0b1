//! The configurations, in turn.

use std::alloc::{AllocError, Global};

/// The limits of a configuration, its routes, and the kind of its draws.
#[derive(Clone, Copy)]
pub(crate) struct Turn {
    /// `questions`, `inquiries`, `cache`, `tries`, `ask_ms`, `deadline_ms` and `stale_s`.
    pub limits: [u32; 7],
    pub routes: &'static str,
    /// Of 64 events, how many are replies.
    pub replies: u32,
    /// The number of ports from which each word draws.
    pub ports: u32,
}

/// One route for all names.
const ONE: &str = r#"[[route]]
suffix = "."
servers = ["192.0.2.1:53", "192.0.2.2:53"]
"#;

/// Two routes, which leave some names without a route.
const NOT_ALL: &str = r#"[[route]]
suffix = "corp.example"
servers = ["192.0.2.9:53", "192.0.2.10:53", "192.0.2.11:53"]
[[route]]
suffix = "test"
servers = ["192.0.2.1:53"]
"#;

/// A route for all names, a route for some, and a denying route.
const DENYING: &str = r#"[[route]]
suffix = "."
servers = ["192.0.2.1:53", "192.0.2.2:53", "192.0.2.3:53", "192.0.2.4:53",
  "192.0.2.5:53", "192.0.2.6:53", "192.0.2.7:53", "192.0.2.8:53"]
[[route]]
suffix = "corp.example"
servers = ["192.0.2.9:53"]
[[route]]
suffix = "home.example"
deny = true
"#;

const DEFAULTS: [u32; 7] = [1024, 256, 4096, 4, 1500, 8000, 0];

const LOWEST: [u32; 7] = [1, 1, 1, 1, 100, 500, 0];

const LOW: [u32; 7] = [5, 3, 4, 3, 400, 2000, 60];

const ONE_TRY: [u32; 7] = [40, 20, 400, 1, 400, 3000, 3600];

const HIGHEST: [u32; 7] = [4096, 1024, 65_536, 16, 10_000, 30_000, 86_400];

/// The turns in their order: limits, routes, replies and ports. The fewer replies and ports there
/// are, the more waits and fails.
pub(crate) const TURNS: [([u32; 7], &str, u32, u32); 10] = [
    (DEFAULTS, ONE, 28, 65_536),
    (LOWEST, ONE, 24, 65_536),
    (LOW, NOT_ALL, 20, 65_536),
    (ONE_TRY, DENYING, 24, 65_536),
    (HIGHEST, DENYING, 6, 65_536),
    (DEFAULTS, ONE, 20, 4),
    (ONE_TRY, ONE, 8, 65_536),
    (LOW, DENYING, 30, 200),
    (HIGHEST, ONE, 30, 65_536),
    (DEFAULTS, DENYING, 10, 65_536),
];

impl Turn {
    /// The text of the configuration.
    pub(crate) fn text(self, alloc: Global) -> Result<String, AllocError> {
        let [questions, inquiries, cache, tries, ask, deadline, stale] = self.limits;
        let routes = self.routes;
        format!(in alloc;
            "version = 2\n[limits]\nquestions = {questions}\ninquiries = {inquiries}\n\
cache = {cache}\ntries = {tries}\nask_ms = {ask}\ndeadline_ms = {deadline}\nstale_s = {stale}\n{routes}"
        )
    }
}
