//! A restart after a line of a script: no action, and nothing left of the state before.

ghost use Rattle.std.specs.Prelude.{◌≤◌};

use crate::script::{Heap, Runner, Script, input_in, lines_of, read_in, run_first};
use forwarder_commands::scripts::{MOST_LINES, ReplayFault};
use network_model::{Event, Outcome, Step, StepInput, run_list};
use std::io::Write;

/// Prints a line if a restart after line `number` has an action, or if the later steps differ from
/// a run over the later lines alone.
pub(crate) fn tell_restart<W: Write>(
    script: Script<'_, '_>,
    number: u32,
    writer: &mut W,
) -> Result<(), ReplayFault>
    requires { number ≤ MOST_LINES }
{
    let mut forwarder = run_first(script, number)?;
    tell_deed(&mut forwarder, number, writer)?;
    tell_rest(script, number, &mut forwarder, writer)
}

/// Restarts a forwarder at the last moment, which must not count. Prints a line if the step has an
/// action, loses a piece, or leaves more due.
fn tell_deed<W: Write>(
    forwarder: &mut Runner<'_>,
    number: u32,
    writer: &mut W,
) -> Result<(), ReplayFault> {
    let outcome = forwarder.step(u64::MAX, [u32::MAX; 8], &Event::Restart)?;
    let is_idle = outcome.actions.is_empty();
    if !is_idle || outcome.unkept > 0 || outcome.more {
        writeln!(writer, "{number} a restart does something")?;
    }
    Ok(())
}

/// Prints a line if a restarted forwarder differs after line `number` from a run over the later
/// lines alone.
fn tell_rest<'a, W: Write>(
    script: Script<'a, '_>,
    number: u32,
    restarted: &mut Runner<'a>,
    writer: &mut W,
) -> Result<(), ReplayFault> {
    let wanted = printed_by_run(script, number)?;
    let made = printed_after(script, number, restarted)?;
    if made.as_slice() != wanted.as_slice() {
        writeln!(writer, "{number} stays over a restart")?;
    }
    Ok(())
}

/// The outcomes, as text, of a run over the lines after line `number`.
fn printed_by_run(script: Script<'_, '_>, number: u32) -> Result<Vec<u8>, ReplayFault> {
    let steps = run_after(script, number)?;
    printed_by_steps(script, number, &steps)
}

/// The outcomes, as text, of the steps of the lines after line `number`.
fn printed_by_steps<'a>(
    script: Script<'a, '_>,
    number: u32,
    steps: &[Step<Heap<'a>>],
) -> Result<Vec<u8>, ReplayFault> {
    let mut printed = Vec::new(script.alloc);
    let mut later = number;
    for step in steps {
        later = later.saturating_add(1);
        let more = printed_by(script, later, &step.outcome)?;
        printed.extend_from_slice(&more)?;
    }
    Ok(printed)
}

/// The outcomes, as text, of a forwarder at the lines after line `number`, up to a refused line.
fn printed_after<'a>(
    script: Script<'a, '_>,
    number: u32,
    forwarder: &mut Runner<'a>,
) -> Result<Vec<u8>, ReplayFault> {
    let mut printed = Vec::new(script.alloc);
    let mut lines = script.events.split(|octet| *octet == b'\n');
    for before in 0..MOST_LINES {
        let Some(line) = lines.next() else {
            return Ok(printed);
        };
        if before < number {
            continue;
        }
        match done_at(script, before + 1, line, forwarder) {
            Ok(more) => printed.extend_from_slice(&more)?,
            Err(ReplayFault::Line(_)) => return Ok(printed),
            Err(fault) => return Err(fault),
        }
    }
    Ok(printed)
}

/// The outcome, as text, of a forwarder at a line, with ample memory.
fn done_at<'a>(
    script: Script<'a, '_>,
    number: u32,
    line: &[u8],
    forwarder: &mut Runner<'a>,
) -> Result<Vec<u8>, ReplayFault>
    requires { number ≤ MOST_LINES }
{
    let input = input_in(script, number, line)?;
    let outcome = forwarder.step(input.now, input.words, &input.event)?;
    printed_by(script, number, &outcome)
}

/// Runs the lines after line `number`.
fn run_after<'a>(
    script: Script<'a, '_>,
    number: u32,
) -> Result<Vec<Step<Heap<'a>>, Heap<'a>>, ReplayFault> {
    let config = read_in(script)?;
    let input = input_after(script, number)?;
    Ok(run_list(script.heap, &config, &input)?)
}

/// The inputs of the lines after line `number`, up to a refused line.
fn input_after<'a>(
    script: Script<'a, '_>,
    number: u32,
) -> Result<Vec<StepInput<Heap<'a>>, Heap<'a>>, ReplayFault> {
    let mut input = Vec::new(script.heap);
    let mut lines = script.events.split(|octet| *octet == b'\n');
    for before in 0..MOST_LINES {
        let Some(line) = lines.next() else {
            return Ok(input);
        };
        if before < number {
            continue;
        }
        input.reserve(1)?;
        match input_in(script, before + 1, line) {
            Ok(entry) => input.push_reserved(entry),
            Err(ReplayFault::Line(_)) => return Ok(input),
            Err(fault) => return Err(fault),
        }
    }
    Ok(input)
}

/// An outcome as text: its printed lines, the number of pieces not kept, and whether more is due.
fn printed_by<'a>(
    script: Script<'a, '_>,
    number: u32,
    outcome: &Outcome<Heap<'a>>,
) -> Result<Vec<u8>, ReplayFault> {
    let mut lines = lines_of(script, number, outcome)?;
    let unkept = outcome.unkept;
    let more = outcome.more;
    writeln!(lines, "{unkept} {more}")?;
    Ok(lines)
}
