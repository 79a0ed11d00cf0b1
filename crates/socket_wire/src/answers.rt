//! The consequences of the system's answers.

ghost use Rattle.std.specs.Prelude.{◌≡◌, Ok, Err, IfErr, OnOk};

use std::io;

/// Returns the value if the system did as asked, otherwise its error.
pub(crate) fn kept_if<T: Drop>(value: T, answer: io::Result<()>) -> io::Result<T>
    ensures ok { OnOk answer (result ≡ Ok value) }
    ensures err { IfErr answer (λ error. result ≡ Err error) }
{
    match answer {
        Ok(()) => Ok(value),
        Err(error) => Err(error),
    }
}

/// The result of sending a datagram: all of it was sent, or nothing.
pub(crate) fn sent(answer: io::Result<usize>) -> io::Result<()>
    ensures ok { OnOk answer (result ≡ Ok tt) }
    ensures err { IfErr answer (λ error. result ≡ Err error) }
{
    match answer {
        Ok(_) => Ok(()),
        Err(error) => Err(error),
    }
}
