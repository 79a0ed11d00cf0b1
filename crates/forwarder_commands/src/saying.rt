//! Says on standard output why a command stopped. If this fails too, only the status says so.

ghost use Rattle.std.specs.Prelude.{◌≡◌};
ghost use Rattle.std.specs.IoError.{error_kind};
ghost use Rattle.replay_script.specs.Faults.{device_fault};

use crate::files::Opened;
use replay_script::ReplayFault;
use std::fmt::Display;
use std::io::ErrorKind;
use std::{io, str};
use suffix_routes::Peer;

/// A line for a person.
pub(crate) fn say<R: Print, T: Display>(rt: &R, line: &T) {
    let _ = println!(rt; "{line}");
}

/// Prints the failed thing, and the reason.
pub(crate) fn say_of<R: Print, T: Display, U: Display>(rt: &R, what: &T, reason: &U) {
    let _ = println!(rt; "{what}: {reason}");
}

/// The fault of a file that the system does not open.
pub(crate) fn unopened<R: Print>(rt: &R, name: &[u8], error: io::Error) -> ReplayFault
    ensures { result ≡ device_fault (error_kind error) }
{
    if !is_want_of_memory(&error) {
        say_of_file(rt, name, &error);
    }
    ReplayFault::from(error)
}

/// Why an opened file gave no octets: the system's reason, or too many octets.
pub(crate) fn say_unread<R: Print>(rt: &R, name: &[u8], file: &Opened) {
    match file.failure() {
        Some(error) => say_of_file(rt, name, &error),
        None => say_of_file(rt, name, &"more than 16777216 octets"),
    }
}

/// The fault of an address without a listener.
pub(crate) fn unlistened<R: Print>(rt: &R, listen: Peer, error: io::Error) -> ReplayFault
    ensures { result ≡ device_fault (error_kind error) }
{
    if !is_want_of_memory(&error) {
        say_of(rt, &listen, &error);
    }
    ReplayFault::from(error)
}

/// Whether memory ran out, about which nothing is printed.
fn is_want_of_memory(error: &io::Error) -> bool {
    error.kind() == ErrorKind::OutOfMemory
}

/// The name of a file, and a reason. A name that is no text, or has control characters, is shown
/// with escapes.
fn say_of_file<R: Print, T: Display>(rt: &R, name: &[u8], reason: &T) {
    match str::from_utf8(name) {
        Ok(text) if !text.chars().any(char::is_control) => say_of(rt, &text, reason),
        _ => say_of(rt, &name.escape_ascii(), reason),
    }
}
