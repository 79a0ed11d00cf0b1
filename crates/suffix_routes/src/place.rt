//! Places in a configuration, and the limits by their keys.

ghost use Rattle.std.specs.Prelude.{◌≡◌, pos};
ghost use Rattle.suffix_routes.specs.declared.version.Version.TheVariants.{One};
ghost use Rattle.suffix_routes.specs.Places.{limit_key, limit_keys, route_keys, is_among, lowest, highest, default_of};
ghost use Rattle.suffix_routes.specs.Places.{knows};

use crate::excerpt::Excerpt;
use crate::version::Version;
use std::fmt;

/// A limit, by its key in the table `limits`.
#[derive(Clone, Copy, Debug, PartialEq, Eq)]
pub enum Limit {
    /// `questions`
    Questions,
    /// `inquiries`
    Inquiries,
    /// `cache`
    Cache,
    /// `tries`
    Tries,
    /// `ask_ms`
    AskMs,
    /// `deadline_ms`
    DeadlineMs,
    /// `stale_s`
    StaleS,
}

impl Limit {
    /// The key in the table `limits`.
    pub fn key(self) -> &'static str
        ensures { result.now ≡ limit_key self }
    {
        match self {
            Limit::Questions => "questions",
            Limit::Inquiries => "inquiries",
            Limit::Cache => "cache",
            Limit::Tries => "tries",
            Limit::AskMs => "ask_ms",
            Limit::DeadlineMs => "deadline_ms",
            Limit::StaleS => "stale_s",
        }
    }

    /// The lowest allowed value.
    pub fn lowest(self) -> i64
        ensures { result ≡ pos (lowest self) }
    {
        match self {
            Limit::Questions | Limit::Inquiries | Limit::Cache | Limit::Tries => 1,
            Limit::AskMs => 100,
            Limit::DeadlineMs => 500,
            Limit::StaleS => 0,
        }
    }

    /// The highest allowed value.
    pub fn highest(self) -> i64
        ensures { result ≡ pos (highest self) }
    {
        match self {
            Limit::Questions => 4096,
            Limit::Inquiries => 1024,
            Limit::Cache => 65_536,
            Limit::Tries => 16,
            Limit::AskMs => 10_000,
            Limit::DeadlineMs => 30_000,
            Limit::StaleS => 86_400,
        }
    }

    /// The value without a key.
    pub fn default_value(self) -> u64
        ensures { result ≡ default_of self }
    {
        match self {
            Limit::Questions => 1024,
            Limit::Inquiries => 256,
            Limit::Cache => 4096,
            Limit::Tries => 4,
            Limit::AskMs => 1500,
            Limit::DeadlineMs => 8000,
            Limit::StaleS => 0,
        }
    }
}

/// A place in a configuration. Routes and servers are counted from 0 here, and from 1 in text.
#[derive(Clone, Copy, Debug, PartialEq, Eq)]
pub enum Place {
    /// The whole document.
    Document,
    /// The key `version`.
    Version,
    /// The key `listen`.
    Listen,
    /// The table `limits`.
    Limits,
    /// A key of `limits`.
    Limit(Limit),
    /// The array `route`.
    Routes,
    /// A table of the array `route`.
    Route(usize),
    /// The key `suffix` of a route.
    Suffix(usize),
    /// The key `deny` of a route.
    Deny(usize),
    /// The array `servers` of a route.
    Servers(usize),
    /// A server of a route: the route's place, then the server's.
    Server(usize, usize),
}

impl Place {
    /// The allowed values of this place, in words.
    pub fn wanted(&self) -> &'static str {
        match self {
            Place::Document | Place::Limits | Place::Route(_) => "a table",
            Place::Version => "the integer 1 or 2",
            Place::Limit(_) => "an integer",
            Place::Listen | Place::Suffix(_) | Place::Server(_, _) => "a string",
            Place::Deny(_) => "a boolean",
            Place::Routes => "an array of 1 to 64 tables",
            Place::Servers(_) => "an array of 1 to 8 strings",
        }
    }

    /// The words for a missing key, or for an empty array of routes.
    pub(crate) fn absence(&self) -> &'static str {
        match self {
            Place::Routes => "missing or empty",
            _ => "missing",
        }
    }

    /// The known keys of a table at this place in this version.
    pub fn keys(&self, version: Version) -> &'static str {
        match (self, version) {
            (Place::Document, _) => "`version`, `listen`, `limits`, `route`",
            (Place::Limits, Version::One) => {
                "`questions`, `inquiries`, `cache`, `tries`, `ask_ms`, `deadline_ms`"
            }
            (Place::Limits, Version::Two) => {
                "`questions`, `inquiries`, `cache`, `tries`, `ask_ms`, `deadline_ms`, `stale_s`"
            }
            (Place::Route(_), Version::One) => "`suffix`, `servers`",
            (Place::Route(_), Version::Two) => "`suffix`, `deny`, `servers`",
            _ => "none",
        }
    }

    /// The reason why a key is refused that is unknown in this version for a table at this place;
    /// `remedy` follows.
    pub(crate) fn refusal(&self, version: Version, key: &Excerpt) -> &'static str {
        if self.needs_second(version, key) {
            "needs"
        } else {
            "is none of"
        }
    }

    /// The text to write in place of such a key, or next to it.
    pub(crate) fn remedy(&self, version: Version, key: &Excerpt) -> &'static str {
        if self.needs_second(version, key) {
            "`version = 2`"
        } else {
            self.keys(version)
        }
    }

    /// Whether only the second version has this key at this place, and the text is of the first.
    fn needs_second(&self, version: Version, key: &Excerpt) -> bool {
        match (self, version) {
            (Place::Limits, Version::One) => key.octets() == b"stale_s".as_slice(),
            (Place::Route(_), Version::One) => key.octets() == b"deny".as_slice(),
            _ => false,
        }
    }

    /// Whether a table at this place may have the key in this version.
    pub(crate) fn knows(&self, version: Version, key: &str) -> bool
        ensures { result ≡ knows version self.now key.now }
    {
        match self {
            Place::Document => key == "version"
                || key == "listen"
                || key == "limits"
                || key == "route",
            Place::Limits => is_limit_key(version, key),
            Place::Route(_) => is_route_key(version, key),
            _ => false,
        }
    }
}

fn is_limit_key(version: Version, key: &str) -> bool
    ensures { result ≡ is_among (limit_keys version) key.now }
{
    match version {
        Version::One => is_first_limit_key(key),
        Version::Two => key == "stale_s" || is_first_limit_key(key),
    }
}

fn is_first_limit_key(key: &str) -> bool
    ensures { result ≡ is_among (limit_keys One) key.now }
{
    key == "questions"
        || key == "inquiries"
        || key == "cache"
        || key == "tries"
        || key == "ask_ms"
        || key == "deadline_ms"
}

fn is_route_key(version: Version, key: &str) -> bool
    ensures { result ≡ is_among (route_keys version) key.now }
{
    match version {
        Version::One => is_first_route_key(key),
        Version::Two => key == "deny" || is_first_route_key(key),
    }
}

fn is_first_route_key(key: &str) -> bool
    ensures { result ≡ is_among (route_keys One) key.now }
{
    key == "suffix" || key == "servers"
}

impl fmt::Display for Place {
    fn fmt<W: fmt::Write>(&self, f: &mut fmt::Formatter<W>) -> fmt::Result {
        match self {
            Place::Document => write!(f, "the document"),
            Place::Version => write!(f, "`version`"),
            Place::Listen => write!(f, "`listen`"),
            Place::Limits => write!(f, "`limits`"),
            Place::Limit(limit) => write!(f, "`{}` in `limits`", limit.key()),
            Place::Routes => write!(f, "`route`"),
            Place::Route(route) => write!(f, "route {}", route.saturating_add(1)),
            Place::Suffix(route) => write!(f, "`suffix` of route {}", route.saturating_add(1)),
            Place::Deny(route) => write!(f, "`deny` of route {}", route.saturating_add(1)),
            Place::Servers(route) => write!(f, "`servers` of route {}", route.saturating_add(1)),
            Place::Server(route, server) => {
                let (server, route) = (server.saturating_add(1), route.saturating_add(1));
                write!(f, "server {server} of route {route}")
            }
        }
    }
}
