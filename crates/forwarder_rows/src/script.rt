//! A script, and forwarders that run its lines with refusable memory.

ghost use Rattle.std.specs.Prelude.{◌≤◌};

use forwarder_commands::scripts::{
    MOST_LINES, ReplayFault, ScriptParts, input_of_line, parts, print, read_config,
};
use lru::DefaultHasher;
use network_model::{Forwarder, Outcome, StepInput};
use refusing_allocator::Refusing;
use std::alloc::Global;
use std::io::Write;
use suffix_routes::Config;

/// Refusable memory.
pub(crate) type Heap<'a> = &'a Refusing<Global>;

/// A forwarder whose memory can be refused.
pub(crate) type Runner<'a> = Forwarder<DefaultHasher, Heap<'a>>;

/// The words of a script's first line: identifier 8 and port 1032 by the first word, and the next
/// identifier and port by each further word.
const FIRST_WORDS: [u32; 8] = [
    524_296, 589_833, 655_370, 720_907, 786_444, 851_981, 917_518, 983_055,
];

/// The way of running a script's lines. All but `Narrow` probe them: each allocation of each step
/// is refused in turn. In a short script, a restart is tried after each line, and the beginnings of
/// each message in the message's place.
#[derive(Clone, Copy, PartialEq, Eq)]
pub(crate) enum Way {
    /// Each line has the words of its number.
    OwnWords,
    /// Each line has the words of the first, and each line that leaves more due is reported.
    SameWords,
    /// Each line has the words of the first, and each line that leaves more due is reported. The
    /// refused allocations of each line are counted.
    Counted,
    /// Each line has the words of its number, and no large block of memory.
    Narrow,
}

impl Way {
    /// The words of each line, if all have the first line's.
    fn words(self) -> Option<[u32; 8]> {
        match self {
            Way::OwnWords | Way::Narrow => None,
            Way::SameWords | Way::Counted => Some(FIRST_WORDS),
        }
    }
}

/// A script, the memory of its run, and the way of running its lines.
#[derive(Clone, Copy)]
pub(crate) struct Script<'a, 's> {
    /// The memory of the printed text.
    pub alloc: Global,
    /// The memory of the forwarders and their inputs.
    pub heap: Heap<'a>,
    /// The configuration.
    pub config: &'s [u8],
    /// The event lines, without the line feed at the end of the last.
    pub events: &'s [u8],
    /// How many event lines there are.
    pub count: u32,
    /// The way of running the lines.
    pub way: Way,
}

/// A script's parts, with the memory of its run; `Line(0)` without a line `---`.
pub(crate) fn script_in<'a, 's>(
    alloc: Global,
    heap: Heap<'a>,
    text: &'s [u8],
    way: Way,
) -> Result<Script<'a, 's>, ReplayFault> {
    let ScriptParts { config, events } = parts(text).ok_or(ReplayFault::Line(0))?;
    let lines = events.strip_suffix(b"\n".as_slice()).unwrap_or(events);
    let count = if events.is_empty() {
        0
    } else {
        count_lines(lines)
    };
    Ok(Script {
        alloc,
        heap,
        config,
        events: lines,
        count,
        way,
    })
}

/// The number of lines, parted by line feeds; an empty text is one line.
fn count_lines(lines: &[u8]) -> u32 {
    let mut count = 0u32;
    for _line in lines.split(|octet| *octet == b'\n') {
        count = count.saturating_add(1);
    }
    count
}

/// The configuration of a script.
pub(crate) fn read_in<'a>(script: Script<'a, '_>) -> Result<Config<Heap<'a>>, ReplayFault> {
    let mut config = script.config;
    read_config(script.alloc, script.heap, &mut config)
}

/// A new forwarder with the configuration of a script.
pub(crate) fn begin<'a>(script: Script<'a, '_>) -> Result<Runner<'a>, ReplayFault> {
    let config = read_in(script)?;
    Ok(Forwarder::new(script.heap, config, DefaultHasher::default())?)
}

/// A forwarder that has run the first `count` lines of a script, with ample memory.
pub(crate) fn run_first<'a>(script: Script<'a, '_>, count: u32) -> Result<Runner<'a>, ReplayFault>
    requires { count ≤ MOST_LINES }
{
    let mut forwarder = begin(script)?;
    run_again(script, count, &mut forwarder)?;
    Ok(forwarder)
}

/// Runs the first `count` lines of a script, with ample memory, on this forwarder after a restart.
pub(crate) fn run_again<'a>(
    script: Script<'a, '_>,
    count: u32,
    forwarder: &mut Runner<'a>,
) -> Result<(), ReplayFault>
    requires { count ≤ MOST_LINES }
{
    forwarder.restart();
    let mut lines = script.events.split(|octet| *octet == b'\n');
    for before in 0..count {
        let Some(line) = lines.next() else {
            return Ok(());
        };
        let input = input_in(script, before + 1, line)?;
        let _outcome = forwarder.step(input.now, input.words, &input.event)?;
    }
    Ok(())
}

/// The input of a line.
pub(crate) fn input_in<'a>(
    script: Script<'a, '_>,
    number: u32,
    line: &[u8],
) -> Result<StepInput<Heap<'a>>, ReplayFault>
    requires { number ≤ MOST_LINES }
{
    let mut input = input_of_line(script.heap, number, line)?;
    input.words = script.way.words().unwrap_or(input.words);
    Ok(input)
}

/// The lines of an outcome in a row.
pub(crate) fn lines_of<'a>(
    script: Script<'a, '_>,
    number: u32,
    outcome: &Outcome<Heap<'a>>,
) -> Result<Vec<u8>, ReplayFault> {
    let mut lines = Vec::new(script.alloc);
    for place in 0..outcome.actions.len() {
        if let Some(action) = outcome.actions.get(place) {
            print(script.heap, &mut lines, number, action)?;
        }
    }
    if outcome.more && script.way.words().is_some() {
        writeln!(lines, "{number} more")?;
    }
    Ok(lines)
}
