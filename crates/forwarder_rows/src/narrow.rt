//! Steps without large blocks of memory: a body with a large block for each question, or with a
//! groundless report of no memory, prints different lines.

ghost use Rattle.std.specs.Prelude.{◌≤◌};

use crate::beginnings::octets_of;
use crate::script::{Heap, Runner, Script, input_in, lines_of};
use forwarder_commands::scripts::{MOST_LINES, ReplayFault};
use network_model::{Outcome, StepInput};
use std::io::Write;

/// The most octets of a block in addition to the event's octets.
const SPARE: usize = 2048;

/// Rows with five waiting questions: their list then has room for eight.
const FIVE_WAIT: [&str; 8] = [
    "a_set_or_no_data_takes_a_denial_back",
    "as_many_inquiries_as_may_be_open",
    "joined_questions",
    "lifetimes_from_0_to_seven_days",
    "many_questions",
    "questions_join_whatever_their_flags_are",
    "three_hundred_questions_wait_by_default",
    "types_and_classes_served",
];

/// Rows with a look-up that uses five entries of the cache: the list of their slots then has room
/// for eight.
const FIVE_ENTRIES: [&str; 11] = [
    "a_later_alias_leads_to_itself",
    "a_ninth_alias_is_reported_before_the_limits",
    "a_ninth_alias_to_a_denied_name_is_too_many",
    "aliases_of_the_reply_count_with_those_of_the_cache",
    "an_alias_leads_to_itself",
    "eight_aliases_lead_to_a_denied_name",
    "eight_held_aliases_answer_and_nine_do_not",
    "one_question_is_redirected_and_one_holds_too_many",
    "the_ninth_alias_is_promoted",
    "two_names_lead_to_each_other",
    "up_to_eight_aliases_and_a_set_are_answered_and_kept",
];

/// Rows with a reply of many records: their list and the answer's text are larger than the reply.
const MANY_RECORDS: [&str; 4] = [
    "a_set_is_too_large_over_tcp",
    "a_set_of_255_records_is_sent_over_tcp",
    "a_set_of_300_records_is_sent_over_tcp",
    "an_expired_set_is_too_large_over_tcp",
];

/// Whether a row needs larger blocks.
pub(crate) fn is_wide(row: &str) -> bool {
    match row.rsplit_once('/') {
        Some((_, name)) => {
            is_among(&FIVE_WAIT, name)
                || is_among(&FIVE_ENTRIES, name)
                || is_among(&MANY_RECORDS, name)
        }
        None => false,
    }
}

/// Whether `names` has this name.
fn is_among(names: &[&str], name: &str) -> bool {
    names.iter().any(|other| *other == name)
}

/// Runs one line without blocks of more than [`SPARE`] octets in addition to the event's, and
/// prints its actions.
pub(crate) fn run_narrow<'a, W: Write>(
    script: Script<'a, '_>,
    forwarder: &mut Runner<'a>,
    number: u32,
    line: &[u8],
    writer: &mut W,
) -> Result<(), ReplayFault>
    requires { number ≤ MOST_LINES }
{
    let input = input_in(script, number, line)?;
    let lines = narrow_lines(script, forwarder, number, &input)?;
    writer.write_all(&lines)?;
    Ok(())
}

/// The printed lines of a step without large blocks.
fn narrow_lines<'a>(
    script: Script<'a, '_>,
    forwarder: &mut Runner<'a>,
    number: u32,
    input: &StepInput<Heap<'a>>,
) -> Result<Vec<u8>, ReplayFault> {
    let octets = octets_of(&input.event).len();
    script.heap.refuse_above(octets.saturating_add(SPARE));
    let outcome = forwarder.step(input.now, input.words, &input.event);
    script.heap.refuse_above(usize::MAX);
    printed_by(script, number, &outcome?)
}

/// The lines of an outcome in a row, and one more if a piece was not kept.
fn printed_by<'a>(
    script: Script<'a, '_>,
    number: u32,
    outcome: &Outcome<Heap<'a>>,
) -> Result<Vec<u8>, ReplayFault> {
    let mut lines = lines_of(script, number, outcome)?;
    if outcome.unkept > 0 {
        writeln!(lines, "{number} keeps too little without a large block")?;
    }
    Ok(lines)
}
