//! Says on standard output why a configuration is refused.

use crate::saying::{say, say_of};
use configuration_hints::{hint_for_fault, hint_for_key, hint_for_text};
use suffix_routes::{ConfigFault, Excerpt, Place};
use toml::de::Error;
use toml::{Table, Value};

/// The key at the top of each configuration.
const VERSION: &str = "version";

/// The fault, and then what to mend: why the reader of TOML stopped, where `version` is instead, or
/// a hint. Out of memory, the text is not read again, and only the fault is printed.
pub(crate) fn say_refused<R: Print + AllocGlobal>(rt: &R, octets: &[u8], fault: &ConfigFault) {
    match fault {
        ConfigFault::Toml(_) => match toml::table_from_slice(rt.alloc(), octets) {
            Err(error) if !error.is_memory() => say_not_toml(rt, octets, fault, &error),
            _ => say(rt, fault),
        },
        ConfigFault::MissingKey(Place::Version) => {
            match toml::table_from_slice(rt.alloc(), octets) {
                Ok(table) => say_elsewhere(rt, fault, &table),
                Err(_) => say(rt, fault),
            }
        }
        _ => match hint_for_fault(fault) {
            Some(hint) => say_of(rt, fault, &hint),
            None => say(rt, fault),
        },
    }
}

/// Prints that the text is no TOML, why the reader stopped, and a hint.
fn say_not_toml<R: Print>(rt: &R, octets: &[u8], fault: &ConfigFault, error: &Error) {
    let hint = match error.span() {
        Some(span) => hint_for_text(octets, span.start),
        None => None,
    };
    match hint {
        Some(hint) => say_of(rt, fault, &format_args!("{}; {hint}", error.message())),
        None => say_of(rt, fault, &error.message()),
    }
}

/// Prints that `version` is missing, and which key of the document may be meant, or below which key
/// there is a `version`.
fn say_elsewhere<R: Print>(rt: &R, fault: &ConfigFault, document: &Table) {
    for key in document.keys() {
        if let Some(hint) = hint_for_key(key.as_bytes(), "`version`") {
            let key = Excerpt::of(key.as_str());
            return say_of(rt, fault, &format_args!("there is {key}; {hint}"));
        }
    }
    match document.iter().find(|(_, value)| has_version(value)) {
        Some((key, _)) => {
            let key = Excerpt::of(key.as_str());
            say_of(
                rt,
                fault,
                &format_args!("the one below {key} is a key of that table"),
            );
        }
        None => say(rt, fault),
    }
}

/// Whether the value is a table with the key `version`, or an array with such a table.
fn has_version(value: &Value) -> bool {
    match value {
        Value::Table(table) => table.contains_key(VERSION),
        Value::Array(items) => items.iter().any(is_with_version),
        _ => false,
    }
}

/// Whether the value is a table with the key `version`.
fn is_with_version(value: &Value) -> bool {
    match value {
        Value::Table(table) => table.contains_key(VERSION),
        _ => false,
    }
}
