//! The line printed after checking.

ghost use Rattle.std.specs.Prelude.{[], ◌∷◌, ◌++◌, length, OnOk};
ghost use Rattle.std.specs.Io.KnownBytes.{Appends};
ghost use Rattle.forwarder_commands.specs.Counts.{checked_text};

use std::alloc::Allocator;
use std::io;
use std::io::Write;
use suffix_routes::Config;

/// Writes the line of an accepted configuration: `ok R`, with the number of its routes.
pub(crate) fn write_checked<A: Allocator, W: Write>(
    config: &Config<A>,
    writer: &mut W,
) -> io::Result<()>
    ensures { OnOk result (Appends (W.contents writer.old) (W.contents writer.new)
        (checked_text (length config.now.routes) ++ 10 ∷ [])) }
{
    let routes = config.routes().len();
    writeln!(writer, "ok {routes}")?;
    Ok(())
}
