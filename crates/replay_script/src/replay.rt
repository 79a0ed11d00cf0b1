//! A script, run.

ghost use Rattle.std.specs.Prelude.{◌≡◌, ◌<◌, ◌≤◌, ◌∷◌, [], length};
ghost use Rattle.replay_script.specs.Runs.{lines_of, RunsLines, ReplaysText, Replays};

use crate::actions::print_all;
use crate::events::{MOST_LINES, input_of_line};
use crate::fault::ReplayFault;
use crate::input::{ScriptParts, config_in, first_line, parts, read_limited};
use forwarder_core::Forwarder;
use std::alloc::{Allocator, Global};
use std::hash::{BuildHasherDefault, FoldHasher};
use std::io::{Read, Write};

/// Reads a script whole, runs its events on a new forwarder and prints each action on a line.
///
/// A script is a configuration in TOML, a line `---`, and event lines. `heap` is for reading TOML,
/// `alloc` for everything else. Faults come in this order: `Device` if reading fails or there are
/// more than 16,777,216 octets, `Line(0)` without a line `---`, `Config`, then the faults of the
/// run: `Line` for an event line of none of the forms and for each line after line 8,191 (the lines
/// before have run and are printed), `Device` if writing fails. `Memory` if memory ran out at any
/// point.
///
/// The lines run in order, each as a step of `Forwarder::step`, up to the first refused line. The
/// written text are the lines of the actions of these steps, in order, and these steps serve truly.
/// If memory ran out or writing failed, a beginning of these lines is written. After a fault before
/// the run, nothing is written.
pub fn replay_run<A: Allocator + Copy, R: Read, W: Write>(
    heap: Global,
    alloc: A,
    reader: &mut R,
    writer: &mut W,
) -> Result<(), ReplayFault>
    ensures { Replays (R.remaining reader.old) (W.contents writer.old) result (W.contents writer.new) }
{
    let script = read_limited(alloc, reader)?;
    replay_text(heap, alloc, &script, writer)
}

/// Replays a script that was read.
fn replay_text<A: Allocator + Copy, W: Write>(
    heap: Global,
    alloc: A,
    script: &[u8],
    writer: &mut W,
) -> Result<(), ReplayFault>
    ensures { ReplaysText script.now (W.contents writer.old) result (W.contents writer.new) }
{
    let Some(ScriptParts { config, events }) = parts(script) else {
        return Err(ReplayFault::Line(0));
    };
    let config = config_in(heap, alloc, config)?;
    let hasher = BuildHasherDefault::<FoldHasher>::default();
    let mut forwarder = Forwarder::new(alloc, config, hasher)?;
    run_lines(alloc, &mut forwarder, events, writer)
}

/// Runs the event lines, the last with or without a line feed.
fn run_lines<A: Allocator + Copy, W: Write>(
    alloc: A,
    forwarder: &mut Forwarder<BuildHasherDefault<FoldHasher>, A>,
    events: &[u8],
    writer: &mut W,
) -> Result<(), ReplayFault>
    ensures { RunsLines 1 (lines_of events.now) forwarder.old (W.contents writer.old) result forwarder.new
        (W.contents writer.new) }
{
    let mut rest = events;
    let mut number = 0;
    while !rest.is_empty() {
        if number == MOST_LINES {
            return Err(ReplayFault::Line(MOST_LINES + 1));
        }
        number += 1;
        let (line, after) = next_line(rest);
        run_line(alloc, forwarder, number, line, writer)?;
        rest = after;
    }
    Ok(())
}

/// The first line of these octets, with or without a line feed, and the octets after the line.
fn next_line(text: &[u8]) -> (&[u8], &[u8])
    requires { 0 < length text.now }
    ensures first { lines_of text.now ≡ result.0.now ∷ lines_of result.1.now }
    ensures shorter { length result.1.now < length text.now }
{
    match first_line(text) {
        Some(parts) => parts,
        None => (text, &[]),
    }
}

/// Runs the event line with this number as one step, and prints its actions.
fn run_line<A: Allocator + Copy, W: Write>(
    alloc: A,
    forwarder: &mut Forwarder<BuildHasherDefault<FoldHasher>, A>,
    number: u32,
    line: &[u8],
    writer: &mut W,
) -> Result<(), ReplayFault>
    requires { number ≤ MOST_LINES }
    ensures { RunsLines number (line.now ∷ []) forwarder.old (W.contents writer.old) result forwarder.new
        (W.contents writer.new) }
{
    let input = input_of_line(alloc, number, line)?;
    let outcome = forwarder.step(input.now, input.words, &input.event)?;
    print_all(alloc, writer, number, &outcome.actions)
}
