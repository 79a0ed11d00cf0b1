//! The texts of hints.

use configuration_hints::{Hint, hint_for_fault, hint_for_key, hint_for_text};
use std::alloc::{AllocError, Global};
use std::test::Fail;
use suffix_routes::Config;

/// A text up to the place at which the TOML reader stops, the rest, and the hint.
const TEXTS: [(&str, &str, &str); 30] = [
    (
        "version = 1\n[limits]\ncache = ",
        "04096\n",
        "numbers are written without leading zeros",
    ),
    (
        "version = 1\n[limits]\nask_ms = ",
        "1500ms\n",
        "digits alone, without quotation marks: it counts milliseconds",
    ),
    (
        "version = 1\n[limits]\ncache=",
        "64m\n",
        "digits alone, without quotation marks: it counts record sets, not octets",
    ),
    (
        "version = 2\nlimits = { stale_s  = ",
        "1h }\n",
        "digits alone, without quotation marks: it counts seconds",
    ),
    // The limit `tries` counts tries; no limit is an array.
    (
        "version = 1\n[limits]\ntries = ",
        "4x\n",
        "a number has digits alone",
    ),
    (
        "version = 1\n[limits]\ncache = [",
        "64m]\n",
        "a number has digits alone",
    ),
    (
        "version = 1\n[limits]\ncache = 4",
        ",096\n",
        "a number has digits alone",
    ),
    (
        "version = 1\n[limits]\ncache = 4",
        "'096\n",
        "a number has digits alone",
    ),
    (
        "version = 2\n[[route]]\ndeny = ",
        "True\n",
        "a boolean is `true` or `false`, in small letters",
    ),
    (
        "version = 2\n[[route]]\ndeny = ",
        "yes\n",
        "a boolean is `true` or `false`, in small letters",
    ),
    (
        "version = 2\n[[route]]\ndeny = ",
        "no\n",
        "a boolean is `true` or `false`, in small letters",
    ),
    (
        "version = 2\n[[route]]\ndeny = ",
        "on\n",
        "a boolean is `true` or `false`, in small letters",
    ),
    (
        "version = 2\n[[route]]\ndeny = ",
        "off\n",
        "a boolean is `true` or `false`, in small letters",
    ),
    (
        "version = 1\nlisten = ",
        "127.0.0.1:53\n",
        "a string is between quotation marks",
    ),
    (
        "version = 1\nlisten = ",
        "localhost\n",
        "a string is between quotation marks",
    ),
    (
        "version = 1\nlisten = ",
        "\u{201c}127.0.0.1:53\u{201d}\n",
        "'\u{201c}' (U+201C) is not ASCII",
    ),
    ("version =", "\u{a0}1\n", "'\\u{a0}' (U+00A0) is not ASCII"),
    (
        "version = 1",
        "\rlisten = 2\r",
        "a carriage return has no line feed after it",
    ),
    (
        "version = 1\n",
        "\r",
        "a carriage return has no line feed after it",
    ),
    ("version = 1\n", "// text\n", "a comment begins with `#`"),
    // An open bracket, quotation mark and header, each after closed ones.
    (
        "version = 1\n[[route]]\nservers = [\"a\", \"b\"\n",
        "[[route]]\n",
        "what line 3, column 11 opens is not closed",
    ),
    (
        "# [\nlisten = \"a\\\"[\"\nservers = [['['], [\"a\"\n",
        "",
        "what line 3, column 19 opens is not closed",
    ),
    (
        "version = 1\nlisten = \"127.0.0.1:53",
        "\n",
        "what line 2, column 10 opens is not closed",
    ),
    (
        "version = 1\n[[route]",
        "\n",
        "what line 2, column 1 opens is not closed",
    ),
    // No hint: a missing comma, a missing value, a further value, an octet of no text.
    ("servers = [\"a\" ", "\"b\"]\n", ""),
    ("version =", "\n", ""),
    ("version = 1 ", "2\n", ""),
    ("version = 1", "\r\n", ""),
    ("version = 1", ",\n", ""),
    ("", "", ""),
];

/// A configuration, and the hint for its first fault.
const FAULTS: [(&str, &str); 38] = [
    ("version = 1\ncolour = 1", ""),
    (
        "version = 1\nListen = 1",
        "keys are in small letters: `listen`",
    ),
    ("version = 1\nlimit = 1", "did you mean `limits`?"),
    ("version = 1\nrotue = 1", "did you mean `route`?"),
    (
        "version = 1\nlimits = { ask-ms = 1 }",
        "did you mean `ask_ms`?",
    ),
    ("version = \"1\"", "it is written without quotation marks"),
    (
        "version = 1\nlimits = { tries = \"1\" }",
        "it is written without quotation marks",
    ),
    (
        "version = 1\nlimits = { cache = \"64m\" }",
        "digits alone, without quotation marks: it counts record sets, not octets",
    ),
    (
        "version = 1\nlimits = { deadline_ms = \"8s\" }",
        "digits alone, without quotation marks: it counts milliseconds",
    ),
    (
        "version = 2\nlimits = { stale_s = \"1h\" }",
        "digits alone, without quotation marks: it counts seconds",
    ),
    (
        "version = 1\nlisten = \"192.168.001.001:53\"",
        "numbers are written without leading zeros",
    ),
    (
        "version = 1\nlisten = \"192.168.1.1\"",
        "the port is missing, as in `192.0.2.1:53`",
    ),
    (
        "version = 1\nlisten = \"[2001:db8::1]:53\"",
        "only addresses of IPv4 can be given",
    ),
    (
        "version = 1\nlisten = \"2001:db8::1\"",
        "only addresses of IPv4 can be given",
    ),
    (
        "version = 1\nlisten = \"dns.example:53\"",
        "an address is wanted, no name",
    ),
    (
        "version = 1\nlisten = \"192.0.2.1\u{ff1a}53\"",
        "'\u{ff1a}' (U+FF1A) is not ASCII",
    ),
    (
        "version = 1\nlisten = \"*:53\"",
        "all addresses are `0.0.0.0`, as in `0.0.0.0:53`",
    ),
    (
        "version = 1\nlisten = \":53\"",
        "all addresses are `0.0.0.0`, as in `0.0.0.0:53`",
    ),
    (
        "version = 1\nlisten = \"10.0.0.53:53, 10.0.0.54:53\"",
        "only one address can be given",
    ),
    (
        "version = 1\nlisten = \"10.0.0.53 :53\"",
        "' ' can't be in it",
    ),
    // The fault of a number's range already says the allowed range.
    ("version = 1\nlisten = \"192.0.2.256:53\"", ""),
    ("version = 1\nlisten = \"192.0.2.1005:53\"", ""),
    ("version = 1\nlisten = \"10.0.0.300:53\"", ""),
    (
        "version = 1\n[route]\nsuffix = \".\"",
        "each route begins with `[[route]]`",
    ),
    (
        "version = 1\n[[route]]\nsuffix = \".\"\nservers = \"192.0.2.1:53\"",
        "write `[\"ADDRESS:PORT\"]`, also for one server",
    ),
    (
        "version = 1\n[[route]]\nsuffix = \"b\u{fc}cher.example\"",
        "'\u{fc}' is not ASCII: write the label in its form that begins with `xn--`",
    ),
    (
        "version = 1\n[[route]]\nsuffix = \"10.0.0.0/8\"",
        "a network is written as names, each of 8, 16 or 24 bits: `16.172.in-addr.arpa` is 172.16.0.0/16",
    ),
    (
        "version = 1\n[[route]]\nsuffix = \"corp/8\"",
        "'/' can't be in it",
    ),
    (
        "version = 1\n[[route]]\nsuffix = \"/corp/10.0.0.10\"",
        "a domain is the `suffix` of a route, its servers are in `servers`",
    ),
    (
        "version = 1\n[[route]]\nsuffix = \"corp.ex\u{200b}ample\"",
        "U+200B can't be seen: type the name again",
    ),
    (
        "version = 1\n[[route]]\nsuffix = \"corp.\u{435}xample\"",
        "'\u{435}' (U+0435) is Cyrillic among Latin letters: type the name again",
    ),
    (
        "version = 1\n[[route]]\nsuffix = \"c\u{3bf}rp.example\"",
        "'\u{3bf}' (U+03BF) is Greek among Latin letters: type the name again",
    ),
    (
        "version = 1\n[[route]]\nsuffix = \"corp\u{ff0e}example\"",
        "'\u{ff0e}' (U+FF0E) is not ASCII",
    ),
    (
        "version = 1\n[[route]]\nsuffix = \"corp\u{2013}net.example\"",
        "'\u{2013}' (U+2013) is not ASCII",
    ),
    (
        "version = 1\n[[route]]\nsuffix = \"192.168.1.0/25\"",
        "a network is written as names, each of 8, 16 or 24 bits: `16.172.in-addr.arpa` is 172.16.0.0/16",
    ),
    // An entirely Cyrillic label is intended, whatever the other labels.
    (
        "version = 1\n[[route]]\nsuffix = \"corp.\u{440}\u{444}\"",
        "'\u{440}' is not ASCII: write the label in its form that begins with `xn--`",
    ),
    (
        "version = 1\n[[route]]\nsuffix = \"*.corp\"",
        "a suffix is for all names below it: leave out what is before its first label",
    ),
    ("version = 1\n[[route]]\nsuffix = \"a..b\"", ""),
];

/// A server, and the hint.
const SERVERS: [(&str, &str); 29] = [
    (
        "192.0.2.1:53 192.0.2.2:53",
        "each server is a string of its own",
    ),
    ("192.0.2.1,192.0.2.2", "each server is a string of its own"),
    (
        "192.0.2.1@53",
        "the port follows a colon, as in `192.0.2.1:53`",
    ),
    (
        "192.0.2.1#5353",
        "the port follows a colon, as in `192.0.2.1:53`",
    ),
    (
        "192.0.2.1@853",
        "the port follows a colon, and nothing is encrypted",
    ),
    (
        "192.0.2.1@853#dns.example",
        "the port follows a colon, and nothing is encrypted",
    ),
    (
        "192.0.2.1:853#dns.example",
        "the port follows a colon, and nothing is encrypted",
    ),
    ("192.0.2.1:53%eth0", "no interface can be given"),
    ("192.0.2.1#53@eth0", "no interface can be given"),
    ("192.0.2.1@eth0", "no interface can be given"),
    (
        "/corp/10.0.0.10",
        "a domain is the `suffix` of a route, its servers are in `servers`",
    ),
    // The hint on the server itself comes first.
    (
        "2001:db8::1@853#dns.example",
        "only addresses of IPv4 can be given",
    ),
    ("fe80::1%eth0", "only addresses of IPv4 can be given"),
    ("dns.example@853", "an address is wanted, no name"),
    (
        "udp://192.0.2.1:53",
        "an address, a colon and a port alone, as in `192.0.2.1:53`",
    ),
    (
        "tcp://192.0.2.1",
        "an address, a colon and a port alone, as in `192.0.2.1:53`",
    ),
    (
        "tls://192.0.2.1:853",
        "the port follows a colon, and nothing is encrypted",
    ),
    (
        "[192.0.2.1]:53",
        "an address, a colon and a port alone, as in `192.0.2.1:53`",
    ),
    (
        "192.0.2.1::53",
        "an address, a colon and a port alone, as in `192.0.2.1:53`",
    ),
    (
        "192.0.2.1:53/tcp",
        "an address, a colon and a port alone, as in `192.0.2.1:53`",
    ),
    (
        "192.0.2.1 port 53",
        "an address, a colon and a port alone, as in `192.0.2.1:53`",
    ),
    (
        "192.0.2.1;53",
        "the port follows a colon, as in `192.0.2.1:53`",
    ),
    (
        "192.0.2.1,53",
        "the port follows a colon, as in `192.0.2.1:53`",
    ),
    (
        "192.0.2.1.53",
        "the port follows a colon, as in `192.0.2.1:53`",
    ),
    ("192. 0.2.1:53", "' ' can't be in it"),
    ("192.0,2.1:53", "',' can't be in it"),
    (
        "[/corp/]10.0.0.10",
        "a domain is the `suffix` of a route, its servers are in `servers`",
    ),
    ("[2001:db8::1]:53", "only addresses of IPv4 can be given"),
    // A wildcard address is no server's.
    ("*:53", ""),
];

/// A table with a forbidden key, and the hint.
const KEYS: [(&str, &str); 14] = [
    (
        "[limits]\nlisten = \"10.0.0.53:53\"",
        "`listen` belongs above the first line in brackets",
    ),
    (
        "[[route]]\nlisten = \"10.0.0.53:53\"",
        "`listen` belongs above the first line in brackets",
    ),
    (
        "[[route]]\nversion = 2",
        "`version` belongs above the first line in brackets",
    ),
    ("cache-size = 1", "`cache` is a key of `[limits]`"),
    ("stale_s = 1", "`stale_s` is a key of `[limits]`"),
    ("server = \"\"", "`servers` is a key of `[[route]]`"),
    ("deny = true", "`deny` is a key of `[[route]]`"),
    (
        "[limits]\nsuffix = \".\"",
        "`suffix` is a key of `[[route]]`",
    ),
    ("[[route]]\nTRIES = 1", "`tries` is a key of `[limits]`"),
    // Keys of the table itself come first.
    ("listen-address = \"\"", "did you mean `listen`?"),
    ("[limits]\ncache_size = 1", "did you mean `cache`?"),
    ("[[route]]\nserver = \"\"", "did you mean `servers`?"),
    // Two of four octets differ from `deny`.
    ("[[route]]\ndns = \"\"", ""),
    ("dns = \"\"", ""),
];

/// Whether this is the hint's text, empty without a hint.
fn is_said(heap: Global, hint: Option<Hint>, wanted: &str) -> Result<bool, AllocError> {
    match hint {
        Some(hint) => {
            let said = format!(in heap; "{hint}")?;
            Ok(said.as_str() == wanted)
        }
        None => Ok(wanted.is_empty()),
    }
}

/// Whether this is the hint for a text of invalid TOML.
fn is_said_of_text(
    heap: Global,
    before: &str,
    rest: &str,
    wanted: &str,
) -> Result<bool, AllocError> {
    let text = format!(in heap; "{before}{rest}")?;
    is_said(heap, hint_for_text(text.as_bytes(), before.len()), wanted)
}

/// Whether this is the hint for the first fault of a configuration.
fn is_said_of_fault(heap: Global, text: &str, wanted: &str) -> Result<bool, AllocError> {
    match Config::read(heap, heap, text) {
        Ok(_accepted) => Ok(false),
        Err(fault) => is_said(heap, hint_for_fault(&fault), wanted),
    }
}

#[test]
fn texts_that_are_no_toml(rt: HostRuntime) -> Result<(), Fail> {
    for (row, (before, rest, wanted)) in TEXTS.iter().enumerate() {
        assert!(rt;
            is_said_of_text(rt.alloc(), before, rest, wanted)?,
            "row {row}: {wanted}"
        );
    }
    Ok(())
}

#[test]
fn faults(rt: HostRuntime) -> Result<(), Fail> {
    for (row, (text, wanted)) in FAULTS.iter().enumerate() {
        assert!(rt;
            is_said_of_fault(rt.alloc(), text, wanted)?,
            "row {row}: {wanted}"
        );
    }
    Ok(())
}

#[test]
fn faults_of_servers(rt: HostRuntime) -> Result<(), Fail> {
    let heap = rt.alloc();
    for (server, wanted) in &SERVERS {
        let route = "version = 1\n[[route]]\nsuffix = \".\"\nservers = [\"";
        let text = format!(in heap; "{route}{server}\"]")?;
        assert!(rt;
            is_said_of_fault(heap, text.as_str(), wanted)?,
            "{server}: {wanted}"
        );
    }
    Ok(())
}

#[test]
fn faults_of_keys(rt: HostRuntime) -> Result<(), Fail> {
    let heap = rt.alloc();
    for (key, wanted) in &KEYS {
        let text = format!(in heap; "version = 2\n{key}")?;
        assert!(rt;
            is_said_of_fault(heap, text.as_str(), wanted)?,
            "{key}: {wanted}"
        );
    }
    Ok(())
}

#[test]
fn keys(rt: HostRuntime) -> Result<(), Fail> {
    let near = hint_for_key(b"verison", "`version`");
    let far = hint_for_key(b"vrsn_", "`version`");
    let long = hint_for_key(b"a_key_that_is_longer_than_any", "`version`");
    let longer = hint_for_key(b"deadline_mss", "`deadline_ms`");
    // A key of the greatest length near the longest known key, with another beginning.
    let longest = hint_for_key(b"dead_lines_ms", "`deadline_ms`");
    let least = hint_for_key(b"tris", "`cache`, `tries`, `trees`");
    assert_eq!(rt; near, Some(Hint::Nearly("version")));
    assert_eq!(rt; far, None);
    assert_eq!(rt; long, None);
    assert_eq!(rt; longer, Some(Hint::Nearly("deadline_ms")));
    assert_eq!(rt; longest, Some(Hint::Nearly("deadline_ms")));
    assert_eq!(rt; least, Some(Hint::Nearly("tries")));
    Ok(())
}
