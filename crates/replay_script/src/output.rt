//! Text, written whole or up to a failure.

ghost use Rattle.std.specs.Prelude.{◌≡◌, ◌≤◌, [], length, take, IfOk, IfErr};
ghost use Rattle.std.specs.Io.KnownBytes.{Appends};
ghost use Rattle.replay_script.specs.Configs.{IsOfStream};
ghost use Rattle.replay_script.specs.Faults.{taken_by};
ghost use Rattle.replay_script.specs.Printing.{Writes};

use crate::fault::ReplayFault;
use std::io;
use std::io::{ErrorKind, Write};

/// Writes the whole text. `Device` if writing fails, `Memory` if writing failed because memory ran
/// out; then a beginning of the text is written. The contract of a writer's `write_all` does not
/// mention such beginnings.
pub(crate) fn write_text<W: Write>(writer: &mut W, text: &[u8]) -> Result<(), ReplayFault>
    ensures { Writes (W.contents writer.old) text.now result (W.contents writer.new) }
{
    let mut rest = text;
    for _try in 0..u64::MAX {
        if rest.is_empty() {
            return Ok(());
        }
        let count = write_some(writer, rest)?;
        rest = &rest[count..];
    }
    Err(ReplayFault::Device)
}

/// Writes some of a non-empty text, and returns the number of octets: none after a signal. `Device`
/// if writing fails or the writer takes nothing, `Memory` if memory ran out; then nothing is
/// written.
fn write_some<W: Write>(writer: &mut W, text: &[u8]) -> Result<usize, ReplayFault>
    ensures within { IfOk result (λ count. count ≤ length text.now) }
    ensures wrote { IfOk result (λ count. Appends (W.contents writer.old) (W.contents writer.new)
        (take count text.now)) }
    ensures fault { IfErr result IsOfStream }
    ensures failed { IfErr result (λ fault. Appends (W.contents writer.old) (W.contents writer.new) []) }
{
    taken_by(writer.write(text))
}

/// The number of octets of a non-empty text that a writer took, by its answer: none after a signal.
/// `Device` or `Memory` if it failed, and `Device` if it takes nothing.
fn taken_by(answer: io::Result<usize>) -> Result<usize, ReplayFault>
    ensures { result ≡ taken_by answer }
{
    match answer {
        Ok(0) => Err(ReplayFault::Device),
        Ok(count) => Ok(count),
        Err(error) => match error.kind() {
            ErrorKind::Interrupted => Ok(0),
            _ => Err(ReplayFault::from(error)),
        },
    }
}
