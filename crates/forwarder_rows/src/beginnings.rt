//! Steps with the beginnings of a message in the message's place.

ghost use Rattle.std.specs.Prelude.{◌≤◌};

use crate::script::{Heap, Runner, Script, input_in, run_again, run_first};
use forwarder_commands::scripts::{MOST_LINES, ReplayFault};
use network_model::{Event, StepInput};
use plain_values::PlainList;
use std::alloc::AllocError;
use std::io::Write;

/// The octets of a message's header, the least of a message (RFC 1035 4.1.1).
const LEAST: usize = 12;

/// Makes a step with each beginning of a line's message, from no octets on, on a forwarder that has
/// run the lines before. Prints a line for each beginning shorter than a header if the step has
/// actions. After a step with actions the forwarder runs the lines before again. With ample memory
/// no step is refused.
pub(crate) fn tell_beginnings<W: Write>(
    script: Script<'_, '_>,
    number: u32,
    line: &[u8],
    writer: &mut W,
) -> Result<(), ReplayFault>
    requires { number ≤ MOST_LINES }
{
    let input = input_in(script, number, line)?;
    let mut forwarder = run_first(script, number.saturating_sub(1))?;
    hand_beginnings(script, &mut forwarder, number, &input, writer)
}

/// Makes a step with each beginning of a message on a forwarder that has run the lines before.
fn hand_beginnings<'a, W: Write>(
    script: Script<'a, '_>,
    forwarder: &mut Runner<'a>,
    number: u32,
    input: &StepInput<Heap<'a>>,
    writer: &mut W,
) -> Result<(), ReplayFault>
    requires { number ≤ MOST_LINES }
{
    for end in 0..octets_of(&input.event).len() {
        if is_idle_at(script.heap, forwarder, input, end)? {
            continue;
        }
        if end < LEAST {
            writeln!(writer, "{number} cut to {end} calls for something")?;
        }
        run_again(script, number.saturating_sub(1), forwarder)?;
    }
    Ok(())
}

/// The octets of an event.
pub(crate) fn octets_of<'e>(event: &'e Event<Heap<'_>>) -> &'e [u8] {
    match event {
        Event::Client { bytes, .. } | Event::Delivery { bytes, .. } => bytes.as_slice(),
        Event::PathFailed { .. } | Event::Tick | Event::Restart => &[],
    }
}

/// Makes a step with the first `end` octets of a message. True if the step has no action.
fn is_idle_at<'a>(
    heap: Heap<'a>,
    forwarder: &mut Runner<'a>,
    input: &StepInput<Heap<'a>>,
    end: usize,
) -> Result<bool, ReplayFault> {
    let event = cut_to(heap, &input.event, end)?;
    let outcome = forwarder.step(input.now, input.words, &event)?;
    Ok(outcome.actions.is_empty())
}

/// A copy of an event with the first `end` octets alone.
fn cut_to<'a>(
    heap: Heap<'a>,
    event: &Event<Heap<'a>>,
    end: usize,
) -> Result<Event<Heap<'a>>, AllocError> {
    let octets = octets_of(event);
    let octets = octets.get(..end).unwrap_or(octets);
    match event {
        Event::Client { client, .. } => Ok(Event::Client {
            client: *client,
            bytes: PlainList::copied(heap, octets)?,
        }),
        Event::Delivery { path, from, .. } => Ok(Event::Delivery {
            path: *path,
            from: *from,
            bytes: PlainList::copied(heap, octets)?,
        }),
        _ => event.copy(heap),
    }
}
