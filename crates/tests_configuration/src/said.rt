//! The first fault's text, for people.

use std::alloc::{AllocError, Global};
use std::test::Fail;
use suffix_routes::Config;

/// The beginning of a text of version 1 with a fault in the second route.
const ROUTE: &str = r#"version = 1
[[route]]
suffix = "."
servers = ["192.0.2.1:53"]
[[route]]
"#;

/// The beginning of a text of version 2 with a fault in the second route.
const ROUTE_2: &str = r#"version = 2
[[route]]
suffix = "."
servers = ["192.0.2.1:53"]
[[route]]
"#;

/// A text's beginning, its rest, and the first fault's text.
const SAID: [(&str, &str, &str); 43] = [
    // The place at which the TOML reader stopped: past the end if more is expected, otherwise at
    // the wrong character or the repeated key. Columns count characters.
    (
        "version =",
        "",
        "the text is no TOML: see line 1, column 10",
    ),
    (
        "version = 1",
        "\nversion = 1",
        "the text is no TOML: see line 2, column 1",
    ),
    (
        "version = 1",
        "\n\u{e4} = 1",
        "the text is no TOML: see line 2, column 1",
    ),
    (
        "version = 1",
        "\n[limits\ntries = 1",
        "the text is no TOML: see line 2, column 8",
    ),
    (
        "# \u{e4}\r\nversion = 1\n\n",
        "listen = \"\u{e4}\u{20ac}\" 1",
        "the text is no TOML: see line 4, column 15",
    ),
    // The document.
    (
        "",
        "",
        "`version` is missing, and has to be the integer 1 or 2",
    ),
    (
        "version = \"1\"",
        "",
        "`version` is a string, and has to be the integer 1 or 2",
    ),
    ("version = 3", "", "`version` is 3, and has to be 1 or 2"),
    ("version = 0", "", "`version` is 0, and has to be 1 or 2"),
    (
        "version = 1",
        "\ncolour = 1\nalpha = 1",
        "the document has the key \"alpha\", which is none of `version`, `listen`, `limits`, `route`",
    ),
    (
        "version = 1",
        "\nlisten = \"[::1]:53\"",
        "`listen` is \"[::1]:53\", and has to be four numbers from 0 to 255 with dots between, a colon, and a port from 1 to 65535",
    ),
    (
        "version = 1",
        "\nlisten = true",
        "`listen` is a boolean, and has to be a string",
    ),
    (
        "version = 1",
        "\nlimits = []",
        "`limits` is an array, and has to be a table",
    ),
    (
        "version = 1",
        "\nlimits = { tries = 17 }",
        "`tries` in `limits` is 17, and has to be 1 to 16",
    ),
    (
        "version = 1",
        "\nlimits = { ask_ms = 1.5 }",
        "`ask_ms` in `limits` is a float, and has to be an integer",
    ),
    (
        "version = 1",
        "\nlimits = { cache = 1, \"\" = 1 }",
        "`limits` has the key \"\", which is none of `questions`, `inquiries`, `cache`, `tries`, `ask_ms`, `deadline_ms`",
    ),
    (
        "version = 1",
        "\nroute = []",
        "`route` is missing or empty, and has to be an array of 1 to 64 tables",
    ),
    (
        "version = 1",
        "\nroute = [1]",
        "route 1 is an integer, and has to be a table",
    ),
    (
        "version = 1",
        "\nroute = {}",
        "`route` is a table, and has to be an array of 1 to 64 tables",
    ),
    (
        "version = 1",
        "\nroute = [{},{},{},{},{},{},{},{},{},{},{},{},{},{},{},{},{},{},{},{},{},{},{},{},{},{},{},{},{},{},{},{},{},{},{},{},{},{},{},{},{},{},{},{},{},{},{},{},{},{},{},{},{},{},{},{},{},{},{},{},{},{},{},{},{}]",
        "there are 65 routes, and have to be 1 to 64",
    ),
    // A limit of version 2 alone. In version 1, the fault asks for version 2 only at the key's own
    // place.
    (
        "version = 1",
        "\nlimits = { stale_s = 600 }",
        "`limits` has the key \"stale_s\", which needs `version = 2`",
    ),
    (
        "version = 1",
        "\nlimits = { stale_s = 600, colour = 1 }",
        "`limits` has the key \"colour\", which is none of `questions`, `inquiries`, `cache`, `tries`, `ask_ms`, `deadline_ms`",
    ),
    (
        "version = 1",
        "\nlimits = { deny = true }",
        "`limits` has the key \"deny\", which is none of `questions`, `inquiries`, `cache`, `tries`, `ask_ms`, `deadline_ms`",
    ),
    (
        "version = 1",
        "\nstale_s = 600",
        "the document has the key \"stale_s\", which is none of `version`, `listen`, `limits`, `route`",
    ),
    (
        "version = 2",
        "\nlimits = { stale = 600 }",
        "`limits` has the key \"stale\", which is none of `questions`, `inquiries`, `cache`, `tries`, `ask_ms`, `deadline_ms`, `stale_s`",
    ),
    (
        "version = 2",
        "\nlimits = { stale_s = 86401 }",
        "`stale_s` in `limits` is 86401, and has to be 0 to 86400",
    ),
    (
        "version = 2",
        "\nlimits = { stale_s = false }",
        "`stale_s` in `limits` is a boolean, and has to be an integer",
    ),
    // A route.
    (
        ROUTE,
        "sufix = \"a\"\nservers = []",
        "route 2 has the key \"sufix\", which is none of `suffix`, `servers`",
    ),
    (
        ROUTE,
        "suffix = \"a\"",
        "`servers` of route 2 is missing, and has to be an array of 1 to 8 strings",
    ),
    (
        ROUTE,
        "servers = []",
        "`suffix` of route 2 is missing, and has to be a string",
    ),
    (
        ROUTE,
        "suffix = \"a..b\"",
        "`suffix` of route 2 is \"a..b\", which is no name: a label is empty",
    ),
    (
        ROUTE,
        "suffix = \".\"",
        "`suffix` of route 2 is that of route 1 too, and each route has to have its own",
    ),
    (
        ROUTE,
        "suffix = \"a\"\nservers = []",
        "`servers` of route 2 is empty, and has to have 1 to 8",
    ),
    (
        ROUTE,
        "suffix = \"a\"\nservers = [1, 1, 1, 1, 1, 1, 1, 1, 1]",
        "`servers` of route 2 are 9, and have to be 1 to 8",
    ),
    (
        ROUTE,
        "suffix = \"a\"\nservers = [\"192.0.2.1:53\", 1979-05-27]",
        "server 2 of route 2 is a date or a time, and has to be a string",
    ),
    (
        ROUTE,
        "suffix = \"a\"\nservers = [\"192.0.2.1:053\"]",
        "server 1 of route 2 is \"192.0.2.1:053\", and has to be four numbers from 0 to 255 with dots between, a colon, and a port from 1 to 65535",
    ),
    // A denying route.
    (
        ROUTE,
        "suffix = \"lan\"\ndeny = true",
        "route 2 has the key \"deny\", which needs `version = 2`",
    ),
    (
        ROUTE,
        "suffix = \"lan\"\nstale_s = 600",
        "route 2 has the key \"stale_s\", which is none of `suffix`, `servers`",
    ),
    (
        ROUTE_2,
        "suffix = \"lan\"\ndenied = true",
        "route 2 has the key \"denied\", which is none of `suffix`, `deny`, `servers`",
    ),
    (
        ROUTE_2,
        "suffix = \"lan\"\ndeny = 1",
        "`deny` of route 2 is an integer, and has to be a boolean",
    ),
    (
        ROUTE_2,
        "suffix = \"lan\"\ndeny = true\nservers = [\"192.0.2.9:53\"]",
        "`servers` of route 2 is there, and has to be missing where `deny` is true",
    ),
    (
        ROUTE_2,
        "suffix = \"lan\"\ndeny = false",
        "`servers` of route 2 is missing, and has to be an array of 1 to 8 strings",
    ),
    (
        ROUTE_2,
        "suffix = \"lan\"\ndeny = false\nservers = []",
        "`servers` of route 2 is empty, and has to have 1 to 8",
    ),
];

/// The text `head`, followed by `rest`.
fn joined(heap: Global, head: &str, rest: &str) -> Result<String, AllocError> {
    let mut text = String::from_str(heap, head)?;
    text.push_str(rest)?;
    Ok(text)
}

/// The text of a configuration's fault.
fn said_of(heap: Global, text: &str) -> Result<String, AllocError> {
    match Config::read(heap, heap, text) {
        Ok(_config) => Ok(String::new(heap)),
        Err(fault) => format!(in heap; "{fault}"),
    }
}

#[test]
fn what_is_said(rt: HostRuntime) -> Result<(), Fail> {
    let heap = rt.alloc();
    for (head, rest, wanted) in &SAID {
        let text = joined(heap, head, rest)?;
        assert_eq!(rt; said_of(heap, text.as_str())?.as_str(), *wanted);
    }
    Ok(())
}
