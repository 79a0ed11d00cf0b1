//! Steps with each allocation refused in turn, made again with memory afterwards.

ghost use Rattle.std.specs.Prelude.{◌≤◌};

use crate::script::{Heap, Runner, Script, Way, input_in, lines_of, run_first};
use forwarder_commands::scripts::{MOST_LINES, ReplayFault};
use network_model::{Event, Outcome, StepInput};
use std::io::Write;

/// More allocations than any step of a row makes.
const MOST_GROWTHS: u64 = 10_000;

/// A line whose step is made again and again, with the inputs of the step.
#[derive(Clone, Copy)]
struct Trial<'t, 'a, 's> {
    script: Script<'a, 's>,
    /// The number of the line, from 1.
    number: u32,
    /// The input of the line.
    input: &'t StepInput<Heap<'a>>,
}

/// The refused allocations of a step.
#[derive(Clone, Copy)]
enum Refused {
    /// The allocation after this many, alone.
    One(u64),
    /// All allocations after this many.
    Rest(u64),
}

impl Refused {
    /// Begins these refusals.
    fn begin(self, heap: Heap<'_>) {
        match self {
            Refused::One(granted) => heap.refuse_one(granted),
            Refused::Rest(granted) => heap.allow(granted),
        }
    }

    /// Ends the refusals of `begin`. Returns true if the single refusal is still to come: of one
    /// allocation more than granted, one is refused. For `Rest` this is not visible, and false is
    /// returned.
    fn end(self, heap: Heap<'_>) -> bool {
        let probes = match self {
            Refused::One(granted) => granted.saturating_add(1),
            Refused::Rest(_) => 0,
        };
        let mut is_to_come = false;
        for _probe in 0..probes {
            is_to_come = is_to_come || Box::new(heap, 0u8).is_err();
        }
        heap.allow(u64::MAX);
        is_to_come
    }
}

/// How a step ended whose allocations were to be refused.
#[derive(Clone, Copy, PartialEq, Eq)]
enum End {
    /// The step was made, with the granted allocations alone.
    Spared,
    /// The step was made in spite of a refused allocation.
    Borne,
    /// The step was refused, and made again with ample memory.
    Again,
}

/// The steps with allocations refused, counted.
#[derive(Clone, Copy, Default, PartialEq, Eq)]
struct Counts {
    /// Refused steps.
    refused: u32,
    /// Steps that left a piece unkept.
    unkept: u32,
}

impl Counts {
    /// Counts a step with this many unkept pieces; a step with none was refused.
    fn count(&mut self, unkept: u32) {
        if unkept > 0 {
            self.unkept = self.unkept.saturating_add(1);
        } else {
            self.refused = self.refused.saturating_add(1);
        }
    }
}

/// A step, made.
#[derive(Drop)]
struct Made {
    end: End,
    /// Whether the step has no action.
    is_idle: bool,
    /// The step's lines in a row.
    lines: Vec<u8>,
    /// The number of pieces of a reply that found no memory.
    unkept: u32,
}

/// Runs one line and prints its actions. Then makes the step again with each of its allocations
/// refused in turn, alone and with all later ones. Prints a line for each fault of these steps, and
/// their counts if the script has counts.
pub(crate) fn run_line<'a, W: Write>(
    script: Script<'a, '_>,
    forwarder: &mut Runner<'a>,
    number: u32,
    line: &[u8],
    writer: &mut W,
) -> Result<(), ReplayFault>
    requires { number ≤ MOST_LINES }
{
    let input = input_in(script, number, line)?;
    let trial = Trial {
        script,
        number,
        input: &input,
    };
    let whole = made_with(&trial, forwarder, Refused::One(0))?;
    tell_first(writer, number, is_of_client(&input.event), &whole)?;
    writer.write_all(&whole.lines)?;
    refuse_each(&trial, &whole, writer)
}

/// Whether an event is a client's message: its question may join waiting questions, which allocates
/// and has no action.
fn is_of_client(event: &Event<Heap<'_>>) -> bool {
    matches!(event, Event::Client { .. })
}

/// Prints a line if a step is made in spite of its first allocation's refusal, has an action
/// without an allocation, or, unless the event is a client's, allocates without an action.
fn tell_first<W: Write>(
    writer: &mut W,
    number: u32,
    is_of_client: bool,
    made: &Made,
) -> Result<(), ReplayFault> {
    if made.unkept > 0 || made.end == End::Borne {
        writeln!(writer, "{number} bears a refusal of its first growth")?;
    }
    if !made.is_idle && made.end == End::Spared {
        writeln!(writer, "{number} no growth was refused")?;
    }
    if made.is_idle && made.end == End::Again && !is_of_client {
        writeln!(writer, "{number} took memory for nothing")?;
    }
    Ok(())
}

/// Makes a step again and again, with each of its allocations refused in turn, and prints the
/// counts. `whole` is the step with nothing refused.
fn refuse_each<W: Write>(
    trial: &Trial<'_, '_, '_>,
    whole: &Made,
    writer: &mut W,
) -> Result<(), ReplayFault>
    requires { trial.now.number ≤ MOST_LINES }
{
    let (mut alone, mut rest) = (Counts::default(), Counts::default());
    if whole.end != End::Again {
        return tell_counts(trial, alone, rest, writer);
    }
    let mut unkept = 0;
    for granted in 0..MOST_GROWTHS {
        let end = refuse_one(trial, whole, granted, writer)?;
        if end == End::Spared {
            return tell_counts(trial, alone, rest, writer);
        }
        alone.count(u32::from(end == End::Borne));
        unkept = refuse_rest(trial, whole, granted, unkept, writer)?;
        rest.count(unkept);
    }
    Err(ReplayFault::Memory)
}

/// Prints the counts of the steps with a single refusal, if the script has counts. Also prints a
/// line if the steps with all later allocations refused too have different counts.
fn tell_counts<W: Write>(
    trial: &Trial<'_, '_, '_>,
    alone: Counts,
    rest: Counts,
    writer: &mut W,
) -> Result<(), ReplayFault> {
    let number = trial.number;
    if trial.script.way == Way::Counted {
        let Counts { refused, unkept } = alone;
        writeln!(writer, "{number} counts {refused} {unkept}")?;
    }
    if alone != rest {
        writeln!(
            writer,
            "{number} is refused otherwise with all later growths"
        )?;
    }
    Ok(())
}

/// Makes a step with the allocation after `granted` ones refused alone. Prints a line unless the
/// step is refused and then made again with memory, or made with one piece not kept.
fn refuse_one<W: Write>(
    trial: &Trial<'_, '_, '_>,
    whole: &Made,
    granted: u64,
    writer: &mut W,
) -> Result<End, ReplayFault>
    requires { trial.now.number ≤ MOST_LINES }
{
    let made = made_anew(trial, Refused::One(granted))?;
    let wanted = u32::from(made.end == End::Borne);
    if made.unkept != wanted || made.lines.as_slice() != whole.lines.as_slice() {
        let number = trial.number;
        writeln!(writer, "{number} otherwise without growth {granted}")?;
    }
    Ok(made.end)
}

/// Makes a step with all allocations after `granted` refused. Prints a line unless the step is
/// refused and then made again with memory, or made with some pieces not kept, one fewer than with
/// one allocation less. Returns the number of these pieces; with one allocation less the number was
/// `before`, 0 for a refused step.
fn refuse_rest<W: Write>(
    trial: &Trial<'_, '_, '_>,
    whole: &Made,
    granted: u64,
    before: u32,
    writer: &mut W,
) -> Result<u32, ReplayFault>
    requires { trial.now.number ≤ MOST_LINES }
{
    let made = made_anew(trial, Refused::Rest(granted))?;
    let is_right = match made.end {
        End::Borne => made.unkept > 0 && (before == 0 || made.unkept.saturating_add(1) == before),
        End::Again => made.unkept == 0 && before == 0,
        End::Spared => false,
    };
    if !is_right || made.lines.as_slice() != whole.lines.as_slice() {
        let number = trial.number;
        writeln!(writer, "{number} otherwise with {granted} growths")?;
    }
    Ok(made.unkept)
}

/// The step with these allocations refused, of a forwarder that has run the lines before with ample
/// memory.
fn made_anew(trial: &Trial<'_, '_, '_>, refused: Refused) -> Result<Made, ReplayFault>
    requires { trial.now.number ≤ MOST_LINES }
{
    let before = trial.number.saturating_sub(1);
    let mut forwarder = run_first(trial.script, before)?;
    made_with(trial, &mut forwarder, refused)
}

/// The step with these allocations refused. A refused step has changed nothing, so this forwarder
/// makes the step again with ample memory.
fn made_with<'a>(
    trial: &Trial<'_, 'a, '_>,
    forwarder: &mut Runner<'a>,
    refused: Refused,
) -> Result<Made, ReplayFault> {
    let input = trial.input;
    refused.begin(trial.script.heap);
    let outcome = forwarder.step(input.now, input.words, &input.event);
    let is_spared = refused.end(trial.script.heap);
    match outcome {
        Ok(outcome) if is_spared => made_of(trial, End::Spared, &outcome),
        Ok(outcome) => made_of(trial, End::Borne, &outcome),
        Err(_) => made_again(trial, forwarder),
    }
}

/// The step with ample memory.
fn made_again<'a>(
    trial: &Trial<'_, 'a, '_>,
    forwarder: &mut Runner<'a>,
) -> Result<Made, ReplayFault> {
    let input = trial.input;
    let outcome = forwarder.step(input.now, input.words, &input.event)?;
    made_of(trial, End::Again, &outcome)
}

/// The result of a step with this end and outcome.
fn made_of<'a>(
    trial: &Trial<'_, 'a, '_>,
    end: End,
    outcome: &Outcome<Heap<'a>>,
) -> Result<Made, ReplayFault> {
    let lines = lines_of(trial.script, trial.number, outcome)?;
    Ok(Made {
        end,
        is_idle: outcome.actions.is_empty(),
        lines,
        unkept: outcome.unkept,
    })
}
