//! The worked question and its reply as a run over a list, and step by step next to the stored
//! history.

use crate::worked::{
    QUERY, QUESTION, WORDS, answer_whole, config, new, replies, send_alone, sends,
};
use lru::DefaultHasher;
use network_model::{Forwarder, Recorded, run_list};
use refusing_allocator::Refusing;
use std::alloc::{AllocError, Allocator, Global};
use std::mem::forget;
use std::test::Fail;
use step_values::{Outcome, Step, StepInput};

/// The question is asked at 1000.
fn first<A: Allocator + Copy>(alloc: A) -> Result<StepInput<A>, AllocError> {
    Ok(StepInput {
        now: 1000,
        words: WORDS,
        event: sends(alloc, &QUESTION)?,
    })
}

/// The reply comes at 1020.
fn second<A: Allocator + Copy>(alloc: A) -> Result<StepInput<A>, AllocError> {
    Ok(StepInput {
        now: 1020,
        words: WORDS,
        event: replies(alloc)?,
    })
}

/// Whether these are the two steps: the query goes out, and the answer comes back, with `unkept`
/// pieces lost for lack of memory.
fn are_worked<A: Allocator + Copy>(steps: &[Step<A>], unkept: u32) -> bool {
    match steps {
        [asks, answers] => {
            send_alone(&asks.outcome.actions, &QUERY)
                && answer_whole(&answers.outcome.actions)
                && is_plain(asks, 1000, 0)
                && is_plain(answers, 1020, unkept)
        }
        _ => false,
    }
}

/// Whether the step has this moment, `unkept` pieces were not kept, and nothing more is due.
fn is_plain<A: Allocator>(step: &Step<A>, now: u64, unkept: u32) -> bool {
    step.input.now == now && is_done(&step.outcome, unkept)
}

/// Whether `unkept` pieces were not kept, and nothing more is due.
fn is_done<A: Allocator>(outcome: &Outcome<A>, unkept: u32) -> bool {
    outcome.unkept == unkept && !outcome.more
}

/// Whether the forwarder's step sends the query.
fn is_asked(
    alloc: Global,
    forwarder: &mut Forwarder<DefaultHasher, Global>,
) -> Result<bool, AllocError> {
    let event = sends(alloc, &QUESTION)?;
    let outcome = forwarder.step(1000, WORDS, &event)?;
    Ok(send_alone(&outcome.actions, &QUERY) && is_done(&outcome, 0))
}

/// Whether the forwarder's next step answers.
fn is_answered(
    alloc: Global,
    forwarder: &mut Forwarder<DefaultHasher, Global>,
) -> Result<bool, AllocError> {
    let event = replies(alloc)?;
    let outcome = forwarder.step(1020, WORDS, &event)?;
    Ok(answer_whole(&outcome.actions) && is_done(&outcome, 0))
}

/// Whether the first of two calls of a new forwarder sends the query, and whether the second
/// answers. The forwarder is forgotten: dropping it would need a proof here.
fn worked_by_calls(alloc: Global) -> Result<(bool, bool), AllocError> {
    let mut forwarder = new(alloc)?;
    let asked = is_asked(alloc, &mut forwarder);
    let answered = is_answered(alloc, &mut forwarder);
    forget(forwarder);
    Ok((asked?, answered?))
}

#[test]
fn the_steps_by_calls(rt: HostRuntime) -> Result<(), Fail> {
    assert_eq!(rt; worked_by_calls(rt.alloc())?, (true, true));
    Ok(())
}

/// The refused allocations.
#[derive(Clone, Copy)]
pub(crate) enum Refused {
    /// A single allocation.
    One,
    /// An allocation, and all later allocations.
    Rest,
}

impl Refused {
    /// Grants `granted` allocations from now on, and then refuses.
    pub(crate) fn begin(self, heap: &Refusing<Global>, granted: u64) {
        match self {
            Refused::One => heap.refuse_one(granted),
            Refused::Rest => heap.allow(granted),
        }
    }
}

/// The result of a run with refused allocations.
#[derive(Clone, Copy)]
enum Fate {
    /// A step was refused.
    Lost,
    /// Each step succeeded, but a piece was not kept.
    Unkept,
    /// Each step succeeded whole.
    Whole,
    Other,
}

/// The result of a run with these steps.
fn fate_of_steps<A: Allocator + Copy>(steps: &[Step<A>]) -> Fate {
    if are_worked(steps, 0) {
        Fate::Whole
    } else if are_worked(steps, 1) {
        Fate::Unkept
    } else {
        Fate::Other
    }
}

/// The result of a run over the list, with an allocation refused after `granted`.
fn fate_of_list(
    heap: &Refusing<Global>,
    refused: Refused,
    granted: u64,
) -> Result<Fate, AllocError> {
    let input = [first(heap)?, second(heap)?];
    let config = config(heap)?;
    refused.begin(heap, granted);
    let steps = run_list(heap, &config, &input);
    heap.allow(u64::MAX);
    match &steps {
        Ok(steps) => Ok(fate_of_steps(steps)),
        Err(_) => Ok(Fate::Lost),
    }
}

/// Takes the second step, with an allocation refused after `granted`; returns whether the step
/// succeeded.
fn made_with<'a>(
    heap: &'a Refusing<Global>,
    recorded: &mut Recorded<DefaultHasher, &'a Refusing<Global>>,
    refused: Refused,
    granted: u64,
) -> Result<bool, AllocError> {
    let input = second(heap)?;
    refused.begin(heap, granted);
    let outcome = recorded.step(input);
    heap.allow(u64::MAX);
    Ok(outcome.is_ok())
}

/// Whether a refused second step changed nothing: with memory, the first step and the repeated
/// second step are the worked steps.
fn is_made_again<'a>(
    heap: &'a Refusing<Global>,
    recorded: &mut Recorded<DefaultHasher, &'a Refusing<Global>>,
) -> Result<bool, AllocError> {
    let was_first_alone = recorded.steps().len() == 1;
    recorded.step(second(heap)?)?;
    Ok(was_first_alone && are_worked(recorded.steps(), 0))
}

/// The result of a recorded run's second step, with an allocation refused after `granted`. A
/// refused step has to succeed when repeated.
fn fate_of_second<'a>(
    heap: &'a Refusing<Global>,
    recorded: &mut Recorded<DefaultHasher, &'a Refusing<Global>>,
    refused: Refused,
    granted: u64,
) -> Result<Fate, AllocError> {
    recorded.step(first(heap)?)?;
    if made_with(heap, recorded, refused, granted)? {
        return Ok(fate_of_steps(recorded.steps()));
    }
    let is_made = is_made_again(heap, recorded)?;
    Ok(if is_made { Fate::Lost } else { Fate::Other })
}

/// The result of the second step of a new recorded run, with an allocation refused after `granted`.
/// The run is forgotten.
fn fate_of_recorded(
    heap: &Refusing<Global>,
    refused: Refused,
    granted: u64,
) -> Result<Fate, AllocError> {
    let mut recorded = Recorded::new(heap, config(heap)?, DefaultHasher::default())?;
    let fate = fate_of_second(heap, &mut recorded, refused, granted);
    forget(recorded);
    fate
}

/// A run of the two steps.
#[derive(Clone, Copy)]
enum Run {
    /// Over a list.
    List,
    /// Recorded, with ample memory up to the second step.
    Recorded,
}

/// Refuses each allocation of a run in turn, and counts the runs with a refused step and the runs
/// with an unkept piece. `None` if a run does anything else.
fn refusals_of(
    heap: &Refusing<Global>,
    run: Run,
    refused: Refused,
) -> Result<Option<(u64, u64)>, AllocError> {
    let (mut lost, mut unkept) = (0u64, 0u64);
    for granted in 0..200 {
        let fate = match run {
            Run::List => fate_of_list(heap, refused, granted)?,
            Run::Recorded => fate_of_recorded(heap, refused, granted)?,
        };
        match fate {
            Fate::Lost => lost = lost.saturating_add(1),
            Fate::Unkept => unkept = unkept.saturating_add(1),
            Fate::Whole => return Ok(Some((lost, unkept))),
            Fate::Other => return Ok(None),
        }
    }
    Ok(None)
}

/// The result of [`refusals_of`], with a single allocation refused, and with all later allocations.
fn refusals(alloc: Global, run: Run) -> Result<[Option<(u64, u64)>; 2], AllocError> {
    let heap = Refusing::new(alloc);
    let one = refusals_of(&heap, run, Refused::One)?;
    let rest = refusals_of(&heap, run, Refused::Rest)?;
    Ok([one, rest])
}

/// The configuration makes 2 allocations. A new forwarder makes 7, all but one for the cache. A
/// step makes one more for the copy of its input, and the first step another for the list. Of the
/// first step's 11, none is for its only action, 5 are for the ask, and 4 for the waiting question:
/// a slab and lists of keys. With the last allocation refused, the set is not kept.
#[test]
fn a_run_over_a_list(rt: HostRuntime) -> Result<(), Fail> {
    let [one, rest] = refusals(rt.alloc(), Run::List)?;
    assert_eq!(rt; rest, Some((2 + 7 + (11 + 2) + (8 + 1), 1)));
    assert_eq!(rt; one, rest);
    Ok(())
}

/// The second step's allocations alone: the run keeps the step's input without a copy.
#[test]
fn a_recorded_run(rt: HostRuntime) -> Result<(), Fail> {
    let [one, rest] = refusals(rt.alloc(), Run::Recorded)?;
    assert_eq!(rt; rest, Some((8, 1)));
    assert_eq!(rt; one, rest);
    Ok(())
}

/// Whether a new forwarder is made with an allocation refused after `granted`. The configuration
/// has ample memory.
fn is_forwarder_with(
    heap: &Refusing<Global>,
    refused: Refused,
    granted: u64,
) -> Result<bool, AllocError> {
    let config = config(heap)?;
    refused.begin(heap, granted);
    let forwarder = Forwarder::new(heap, config, DefaultHasher::default());
    heap.allow(u64::MAX);
    let is_made = forwarder.is_ok();
    forget(forwarder);
    Ok(is_made)
}

/// Whether a new recorded run is made with an allocation refused after `granted`. The configuration
/// has ample memory.
fn is_recorded_with(
    heap: &Refusing<Global>,
    refused: Refused,
    granted: u64,
) -> Result<bool, AllocError> {
    let config = config(heap)?;
    refused.begin(heap, granted);
    let recorded = Recorded::new(heap, config, DefaultHasher::default());
    heap.allow(u64::MAX);
    let is_made = recorded.is_ok();
    forget(recorded);
    Ok(is_made)
}

/// The fewest granted allocations with which a forwarder and a run are made; `None` if the numbers
/// differ.
fn growths_of_new(heap: &Refusing<Global>, refused: Refused) -> Result<Option<u64>, AllocError> {
    for granted in 0..64 {
        let is_forwarder = is_forwarder_with(heap, refused, granted)?;
        let is_recorded = is_recorded_with(heap, refused, granted)?;
        if is_forwarder && is_recorded {
            return Ok(Some(granted));
        }
        if is_forwarder || is_recorded {
            return Ok(None);
        }
    }
    Ok(None)
}

/// The result of [`growths_of_new`], with a single allocation refused, and with all later
/// allocations.
fn growths(alloc: Global) -> Result<[Option<u64>; 2], AllocError> {
    let heap = Refusing::new(alloc);
    let one = growths_of_new(&heap, Refused::One)?;
    let rest = growths_of_new(&heap, Refused::Rest)?;
    Ok([one, rest])
}

/// All allocations but one are for the cache. The list of steps does not allocate.
#[test]
fn each_growth_of_a_new_forwarder_is_refused(rt: HostRuntime) -> Result<(), Fail> {
    assert_eq!(rt; growths(rt.alloc())?, [Some(7), Some(7)]);
    Ok(())
}

/// The number of a run's steps after the first step, and whether looking at the steps does not
/// allocate: a single allowed allocation is left.
fn seen_after_first<'a>(
    heap: &'a Refusing<Global>,
    recorded: &mut Recorded<DefaultHasher, &'a Refusing<Global>>,
) -> Result<(usize, bool), AllocError> {
    recorded.step(first(heap)?)?;
    heap.allow(1);
    let count = recorded.steps().len();
    let is_left = Box::new(heap, 0u8).is_ok();
    heap.allow(u64::MAX);
    Ok((count, is_left))
}

/// The number of a new run's steps after the first step, and whether looking at the steps does not
/// allocate. The run is forgotten.
fn seen(alloc: Global) -> Result<(usize, bool), AllocError> {
    let heap = Refusing::new(alloc);
    let mut recorded = Recorded::new(&heap, config(&heap)?, DefaultHasher::default())?;
    let seen = seen_after_first(&heap, &mut recorded);
    forget(recorded);
    seen
}

#[test]
fn steps_are_seen_without_memory(rt: HostRuntime) -> Result<(), Fail> {
    assert_eq!(rt; seen(rt.alloc())?, (1, true));
    Ok(())
}
