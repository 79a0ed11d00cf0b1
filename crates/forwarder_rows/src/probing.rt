//! Scripts, run line by line.

use crate::beginnings::tell_beginnings;
use crate::narrow::run_narrow;
use crate::restarting::tell_restart;
use crate::script::{Heap, Runner, Script, Way, begin, script_in};
use crate::sparing::run_line;
use forwarder_commands::scripts::{MOST_LINES, ReplayFault};
use refusing_allocator::Refusing;
use std::alloc::Global;
use std::io::Write;

/// The most lines of a script with restarts tried after each line.
const MOST_RESTARTED: u32 = 64;

/// The most lines of a script with the beginnings of its messages tried.
const MOST_CUT: u32 = 16;

/// Runs a script in this way. Prints its actions, as with ample memory, the way's report of each
/// line, and one more line for each fault found by a probe.
pub(crate) fn run_stepped<W: Write>(
    alloc: Global,
    text: &[u8],
    way: Way,
    writer: &mut W,
) -> Result<(), ReplayFault> {
    let heap = Refusing::new(alloc);
    run_within(alloc, &heap, text, way, writer)
}

/// Runs a script as [`run_stepped`], with the memory of this heap.
fn run_within<W: Write>(
    alloc: Global,
    heap: Heap<'_>,
    text: &[u8],
    way: Way,
    writer: &mut W,
) -> Result<(), ReplayFault> {
    let script = script_in(alloc, heap, text, way)?;
    let mut forwarder = begin(script)?;
    if script.count == 0 {
        return Ok(());
    }
    run_lines(script, &mut forwarder, writer)
}

/// Runs the lines of a script in order.
fn run_lines<'a, W: Write>(
    script: Script<'a, '_>,
    forwarder: &mut Runner<'a>,
    writer: &mut W,
) -> Result<(), ReplayFault> {
    for (before, line) in script.events.split(|octet| *octet == b'\n').enumerate() {
        let number = match u32::try_from(before) {
            Ok(before) if before < MOST_LINES => before + 1,
            _ => return Err(ReplayFault::Line(MOST_LINES + 1)),
        };
        if script.way == Way::Narrow {
            run_narrow(script, forwarder, number, line, writer)?;
            continue;
        }
        run_line(script, forwarder, number, line, writer)?;
        if script.count <= MOST_RESTARTED {
            tell_restart(script, number, writer)?;
        }
        if script.count <= MOST_CUT {
            tell_beginnings(script, number, line, writer)?;
        }
    }
    Ok(())
}
