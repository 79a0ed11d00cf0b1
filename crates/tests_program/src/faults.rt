//! Tests beyond scripts: readers, writers and files that fail, refused allocations, statuses and
//! texts.

use forwarder_commands::scripts::{ReplayFault, read_config, replay_run};
use forwarder_commands::{Fault, LONGEST, argument, count, load, read_turns, serve_config, text};
use refusing_allocator::Refusing;
use std::alloc::{AllocError, Allocator, Global};
use std::env::FillError;
use std::io::{ErrorKind, Read, Write};
use std::rt::Env;
use std::test::Fail;
use std::{fs, io};
use suffix_routes::{ConfigFault, Position};

pub const CONFIG: &[u8] = b"version = 1
[[route]]
suffix = \".\"
servers = [\"192.0.2.1:53\"]
";

/// A configuration, served on this machine.
pub const SERVED: &[u8] = b"version = 1
listen = \"127.0.0.1:15371\"
[[route]]
suffix = \".\"
servers = [\"127.0.0.1:15372\"]
";

/// The configuration, and a question for a.example's address.
pub const SCRIPT: &[u8] = b"version = 1
[[route]]
suffix = \".\"
servers = [\"192.0.2.1:53\"]
---
1000 client udp 10.0.0.7:40000 1234010000010000000000000161076578616d706c650000010001
";

pub const PRINTED: &[u8] =
    b"1 ask-udp 1032 192.0.2.1:53 0008010000010000000000000161076578616d706c650000010001\n";

/// The printed line of a service without turns.
pub const COUNTED: &[u8] = b"turns 0 lost 0\n";

/// A failing reader.
#[derive(Drop)]
struct Broken;

impl Read for Broken {
    fn read(&mut self, _buffer: &mut [u8]) -> io::Result<usize> {
        Err(io::Error::from(ErrorKind::Other))
    }
}

/// A reader or writer. A signal interrupts each call once, and the call is made again.
#[derive(Drop)]
struct Interrupted<T: Drop> {
    inner: T,
    /// Whether the last call was interrupted.
    was_interrupted: bool,
}

impl<T: Drop> Interrupted<T> {
    fn new(inner: T) -> Interrupted<T> {
        Interrupted {
            inner,
            was_interrupted: false,
        }
    }

    /// The error of an interrupted call.
    fn interrupted(&mut self) -> io::Result<()> {
        self.was_interrupted = !self.was_interrupted;
        if self.was_interrupted {
            Err(io::Error::from(ErrorKind::Interrupted))
        } else {
            Ok(())
        }
    }
}

impl<T: Read + Drop> Read for Interrupted<T> {
    fn read(&mut self, buffer: &mut [u8]) -> io::Result<usize> {
        self.interrupted()?;
        self.inner.read(buffer)
    }
}

impl<T: Write + Drop> Write for Interrupted<T> {
    fn write(&mut self, octets: &[u8]) -> io::Result<usize> {
        self.interrupted()?;
        self.inner.write(octets)
    }

    fn flush(&mut self) -> io::Result<()> {
        self.inner.flush()
    }
}

/// The printed part of the required line.
#[derive(Clone, Copy, PartialEq, Eq, Debug)]
enum Printed {
    Nothing,
    /// A beginning of the line.
    Beginning,
    Whole,
    Other,
}

fn printed_of(octets: &[u8]) -> Printed {
    if octets.is_empty() {
        Printed::Nothing
    } else if octets == PRINTED {
        Printed::Whole
    } else if PRINTED.starts_with(octets) {
        Printed::Beginning
    } else {
        Printed::Other
    }
}

/// The result of a replay of this input, with this memory for the forwarder, and the replay's
/// output.
fn replayed<A: Allocator + Copy, R: Read>(
    alloc: Global,
    heap: A,
    input: &mut R,
) -> (Result<(), ReplayFault>, Printed) {
    let mut printed = Vec::new(alloc);
    let ended = replay_run(alloc, heap, input, &mut printed);
    (ended, printed_of(&printed))
}

/// The result and the output of a replay of the script's first `end` octets, with a reader that
/// fails afterwards.
fn replayed_up_to(alloc: Global, end: usize) -> (Result<(), ReplayFault>, Printed) {
    let mut input = SCRIPT.get(..end).unwrap_or(SCRIPT).chain(Broken);
    replayed(alloc, alloc, &mut input)
}

#[test]
fn readers_that_fail(rt: HostRuntime) {
    for end in [0, 60, SCRIPT.len()] {
        let (ended, printed) = replayed_up_to(rt.alloc(), end);
        assert_eq!(rt; ended, Err(ReplayFault::Device), "{end} octets read");
        assert_eq!(rt; printed, Printed::Nothing, "{end} octets read");
    }
}

/// The replay goes on, and prints as without signals.
#[test]
fn signals_interrupt_reader_and_writer(rt: HostRuntime) {
    let mut input = Interrupted::new(SCRIPT);
    let mut writer = Interrupted::new(Vec::new(rt.alloc()));
    let ended = replay_run(rt.alloc(), rt.alloc(), &mut input, &mut writer);
    assert_eq!(rt; ended, Ok(()));
    assert_eq!(rt; writer.inner.as_slice(), PRINTED);
}

#[test]
fn writers_that_fail(rt: HostRuntime) {
    let mut room = [0u8; 81];
    let mut input = SCRIPT;
    let mut writer = room.as_mut_slice();
    let ended = replay_run(rt.alloc(), rt.alloc(), &mut input, &mut writer);
    assert_eq!(rt; ended, Err(ReplayFault::Device));
}

/// The number of routes in the named file.
fn routes_in(rt: &HostRuntime, name: &[u8]) -> Result<usize, ReplayFault> {
    Ok(load(rt, name)?.routes().len())
}

/// Names of files that cannot be read whole.
const UNREADABLE: [&str; 4] = [".", "/no/such/file", "/dev/zero", ""];

/// A name outside UTF-8 is like any other.
#[test]
fn files_are_loaded(rt: HostRuntime) -> Result<(), Fail> {
    fs::write(&rt, "one_route", CONFIG)?;
    assert_eq!(rt; routes_in(&rt, b"one_route"), Ok(1));
    assert_eq!(rt; os::link(b"one_route", b"\xe4\xff"), 0);
    assert_eq!(rt; routes_in(&rt, b"\xe4\xff"), Ok(1));
    assert_eq!(rt; os::unlink(b"\xe4\xff"), 0);
    assert_eq!(rt; routes_in(&rt, b"\xe4\xff"), Err(ReplayFault::Device));
    for name in &UNREADABLE {
        assert_eq!(rt;
            routes_in(&rt, name.as_bytes()),
            Err(ReplayFault::Device),
            "{name}"
        );
    }
    Ok(())
}

/// A test's arguments, with the program's name first.
#[derive(Drop)]
pub struct Arguments<'a>(pub &'a [&'a [u8]]);

impl Env for Arguments<'_> {
    fn arg(&self, i: usize, buf: &mut [u8]) -> Result<usize, FillError> {
        let octets = self.0.get(i).ok_or(FillError::NotPresent)?;
        let room = buf.get_mut(..octets.len()).ok_or(FillError::TooLong)?;
        room.copy_from_slice(octets);
        Ok(octets.len())
    }

    fn var(&self, _name: &str, _buf: &mut [u8]) -> Result<usize, FillError> {
        Err(FillError::NotPresent)
    }

    fn var_at(&self, _i: usize, _buf: &mut [u8]) -> Result<usize, FillError> {
        Err(FillError::NotPresent)
    }
}

#[test]
fn arguments_are_octets(rt: HostRuntime) {
    let long = [b'a'; LONGEST + 1];
    let words = [
        b"".as_slice(),
        b"check",
        b"\xe4\xff",
        b"",
        &long[1..],
        &long,
    ];
    let given = Arguments(&words);
    let mut room = [0u8; LONGEST];
    for (place, word) in words.iter().enumerate().take(5) {
        let octets = argument(&given, place, &mut room).ok();
        assert_eq!(rt; octets, Some(*word), "{place}");
    }
    let long = argument(&given, 5, &mut room);
    assert!(rt; matches!(long, Err(FillError::TooLong)));
    let missing = argument(&given, 6, &mut room);
    assert!(rt; matches!(missing, Err(FillError::NotPresent)));
    assert_eq!(rt; text(&given, 1, &mut room), Some("check"));
    assert_eq!(rt; text(&given, 2, &mut room), None);
    assert_eq!(rt; text(&given, 6, &mut room), None);
    for (most, wanted) in [(1, 0), (2, 1), (4, 3), (5, 4), (6, 4)] {
        let given = Arguments(words.get(..most).unwrap_or(&words));
        assert_eq!(rt; count(&given), wanted, "{most}");
    }
}

/// A replay's allocations, refused in turn.
#[derive(Clone, Copy)]
struct Refused {
    /// The fewest granted allocations with enough memory.
    granted: u64,
    /// The number of replays with the whole line printed before memory ran out.
    kept: u64,
    /// The last replay's result and output.
    ended: Result<(), ReplayFault>,
    printed: Printed,
}

/// Refuses the allocations of this script's replay in turn, until a replay has enough memory, or
/// prints anything but a beginning.
fn refused_in_turn(alloc: Global, script: &[u8]) -> Refused {
    let heap = Refusing::new(alloc);
    let mut kept = 0u64;
    for granted in 0..1000u64 {
        heap.allow(granted);
        let mut input = script;
        let (ended, printed) = replayed(alloc, &heap, &mut input);
        if ended != Err(ReplayFault::Memory) || printed == Printed::Other {
            return Refused {
                granted,
                kept,
                ended,
                printed,
            };
        }
        kept = kept.saturating_add(u64::from(printed == Printed::Whole));
    }
    Refused {
        granted: 1000,
        kept,
        ended: Err(ReplayFault::Memory),
        printed: Printed::Nothing,
    }
}

#[test]
fn each_growth_is_refused(rt: HostRuntime) {
    let refused = refused_in_turn(rt.alloc(), SCRIPT);
    let granted = refused.granted;
    assert_eq!(rt; refused.ended, Ok(()), "{granted} granted");
    assert_eq!(rt; refused.printed, Printed::Whole, "{granted} granted");
    assert!(rt; 0 < granted);
    assert!(rt; granted < 1000);
}

#[test]
fn a_last_line_without_a_line_feed_prints(rt: HostRuntime) {
    let mut input = SCRIPT.get(..SCRIPT.len() - 1).unwrap_or(SCRIPT);
    let (ended, printed) = replayed(rt.alloc(), rt.alloc(), &mut input);
    assert_eq!(rt; ended, Ok(()));
    assert_eq!(rt; printed, Printed::Whole);
}

/// The script, and the question again from another client: it waits for the first client's ask, and
/// nothing is printed.
const TWO_CLIENTS: &[u8] = b"version = 1
[[route]]
suffix = \".\"
servers = [\"192.0.2.1:53\"]
---
1000 client udp 10.0.0.7:40000 1234010000010000000000000161076578616d706c650000010001
1000 client udp 10.0.0.8:40000 1234010000010000000000000161076578616d706c650000010001
";

/// The first event's lines stay if the second event runs out of memory.
#[test]
fn an_event_that_finds_no_memory(rt: HostRuntime) {
    let refused = refused_in_turn(rt.alloc(), TWO_CLIENTS);
    let granted = refused.granted;
    assert_eq!(rt; refused.ended, Ok(()), "{granted} granted");
    assert_eq!(rt; refused.printed, Printed::Whole, "{granted} granted");
    assert!(rt; 0 < refused.kept);
}

/// The result of a service without turns.
#[derive(Clone, Copy, PartialEq, Eq)]
enum Served {
    /// Memory ran out, and nothing was printed.
    Memory,
    /// The service ended well, and printed the counts.
    Whole,
    Other,
}

fn served_of(ended: &Result<(), Fault>, printed: &[u8]) -> Served {
    match ended {
        Ok(()) if printed == COUNTED => Served::Whole,
        Err(Fault::Stopped(ReplayFault::Memory)) if printed.is_empty() => Served::Memory,
        _ => Served::Other,
    }
}

/// The service's result with `granted` allocations after reading the configuration.
fn served_with(rt: &HostRuntime, heap: &Refusing<Global>, granted: u64) -> Served {
    let mut input = SERVED;
    let Ok(config) = read_config(rt.alloc(), heap, &mut input) else {
        return Served::Other;
    };
    let words = [b"forwarder".as_slice(), b"serve", b"absent", b"0"];
    let Some(turns) = read_turns(&Arguments(&words)) else {
        return Served::Other;
    };
    let mut printed = Vec::new(rt.alloc());
    heap.allow(granted);
    let ended = serve_config(rt, heap, config, turns, &mut printed);
    heap.allow(u64::MAX);
    served_of(&ended, printed.as_slice())
}

/// The fewest allocations with enough memory, and the service's result then.
fn served_at_last(rt: &HostRuntime) -> (u64, Served) {
    let heap = Refusing::new(rt.alloc());
    for granted in 0..100u64 {
        let served = served_with(rt, &heap, granted);
        if served != Served::Memory {
            return (granted, served);
        }
    }
    (100, Served::Memory)
}

#[test]
fn a_service_that_finds_no_memory(rt: HostRuntime) {
    let (granted, served) = served_at_last(&rt);
    assert!(rt; served == Served::Whole, "{granted} granted");
    assert!(rt; 0 < granted);
}

/// Each fault, with its status and text.
const SAID: [(Fault, u8, &str); 5] = [
    (
        Fault::Usage,
        1,
        "usage: forwarder check FILE, replay, or serve FILE TURNS",
    ),
    (
        Fault::Stopped(ReplayFault::Config(ConfigFault::Toml(Position { line: 1, column: 4 }))),
        2,
        "fault 1",
    ),
    (Fault::Stopped(ReplayFault::Line(8192)), 3, "line 8192"),
    (Fault::Stopped(ReplayFault::Memory), 4, "memory"),
    (Fault::Stopped(ReplayFault::Device), 5, "device"),
];

/// Whether this is the fault's text.
fn is_said(alloc: Global, fault: Fault, text: &str) -> Result<bool, AllocError> {
    let report = format!(in alloc; "{fault}")?;
    Ok(report.as_str() == text)
}

#[test]
fn statuses_and_texts(rt: HostRuntime) -> Result<(), Fail> {
    for (fault, status, text) in &SAID {
        assert_eq!(rt; fault.status(), *status);
        assert!(rt; is_said(rt.alloc(), *fault, text)?, "{text}");
    }
    Ok(())
}
