//! The commands, with a test's arguments, input and output.

use crate::faults::{Arguments, CONFIG, COUNTED, PRINTED, SCRIPT, SERVED};
use forwarder_commands::scripts::ReplayFault;
use forwarder_commands::{Fault, Turns, read_turns, run};
use std::alloc::{Allocator, Global};
use std::cell::Cell;
use std::env::FillError;
use std::fmt::Display;
use std::io::{BufRead, Lines, Write};
use std::net::{Net, SocketAddr};
use std::random::RandomSource;
use std::rt::{Clock, Env};
use std::test::Fail;
use std::time::Duration;
use std::{fs, io, net};

/// This machine's system, with the test's arguments and input. Keeps the printed octets, and counts
/// the drawn random octets.
#[derive(Drop)]
struct Host<'a> {
    system: &'a HostRuntime,
    arguments: Arguments<'a>,
    input: &'a [u8],
    printed: Cell<Vec<u8>>,
    octets: Cell<usize>,
}

impl<'a> Host<'a> {
    fn new(system: &'a HostRuntime, words: &'a [&'a [u8]], input: &'a [u8]) -> Host<'a> {
        Host {
            system,
            arguments: Arguments(words),
            input,
            printed: Cell::new(Vec::new(system.alloc())),
            octets: Cell::new(0),
        }
    }
}

impl Env for Host<'_> {
    fn arg(&self, i: usize, buf: &mut [u8]) -> Result<usize, FillError> {
        self.arguments.arg(i, buf)
    }

    fn var(&self, _name: &str, _buf: &mut [u8]) -> Result<usize, FillError> {
        Err(FillError::NotPresent)
    }

    fn var_at(&self, _i: usize, _buf: &mut [u8]) -> Result<usize, FillError> {
        Err(FillError::NotPresent)
    }
}

impl<'a> Input for Host<'a> {
    type Reader = &'a [u8];

    fn read_line<A: Allocator + Clone>(&self, buf: &mut String<A>) -> io::Result<usize> {
        let mut input = self.input;
        input.read_line(buf)
    }

    fn lines<A: Allocator>(&self, alloc: A) -> Lines<&'a [u8], A> {
        self.input.lines(alloc)
    }

    fn reader(&self) -> &'a [u8] {
        self.input
    }
}

impl Print for Host<'_> {
    fn print<D: Display + Drop>(&self, value: D) -> io::Result<()> {
        let mut printed = self.printed.replace(Vec::new(self.system.alloc()));
        write!(printed, "{value}")?;
        self.printed.set(printed);
        Ok(())
    }

    fn println<D: Display + Drop>(&self, value: D) -> io::Result<()> {
        let mut printed = self.printed.replace(Vec::new(self.system.alloc()));
        writeln!(printed, "{value}")?;
        self.printed.set(printed);
        Ok(())
    }

    fn write_all(&self, bytes: &[u8]) -> io::Result<()> {
        let mut printed = self.printed.replace(Vec::new(self.system.alloc()));
        printed.extend_from_slice(bytes)?;
        self.printed.set(printed);
        Ok(())
    }
}

impl Alloc for Host<'_> {
    type A = Global;

    fn alloc(&self) -> Global {
        self.system.alloc()
    }
}

impl Clock for Host<'_> {
    fn monotonic(&self) -> io::Result<Duration> {
        self.system.monotonic()
    }

    fn since_1970(&self) -> io::Result<Duration> {
        self.system.since_1970()
    }
}

impl RandomSource for Host<'_> {
    fn fill_bytes(&self, buf: &mut [u8]) -> io::Result<()> {
        self.octets.set(self.octets.get().saturating_add(buf.len()));
        self.system.fill_bytes(buf)
    }
}

impl Net for Host<'_> {
    type Stream = net::TcpStream;

    type Listener = net::TcpListener;

    fn bind(&self, addr: SocketAddr) -> io::Result<net::TcpListener> {
        self.system.bind(addr)
    }

    fn connect(&self, addr: SocketAddr) -> io::Result<net::TcpStream> {
        self.system.connect(addr)
    }

    fn bind_udp(&self, addr: SocketAddr) -> io::Result<net::UdpSocket> {
        self.system.bind_udp(addr)
    }
}

/// The required output.
#[derive(Clone, Copy)]
enum Wanted<'a> {
    /// These octets.
    Just(&'a [u8]),
    /// Octets beginning with these octets.
    Beginning(&'a [u8]),
    /// Any octets, at least one.
    Some,
}

/// Whether the output is as required.
fn is_wanted(printed: &[u8], wanted: Wanted<'_>) -> bool {
    match wanted {
        Wanted::Just(octets) => printed == octets,
        Wanted::Beginning(octets) => printed.starts_with(octets),
        Wanted::Some => !printed.is_empty(),
    }
}

/// The program's result with these arguments, and whether the output is as required.
fn ended_by(
    rt: &HostRuntime,
    words: &[&[u8]],
    input: &[u8],
    wanted: Wanted<'_>,
) -> (Result<(), Fault>, bool) {
    let host = Host::new(rt, words, input);
    let ended = run(&host);
    let printed = host.printed.replace(Vec::new(rt.alloc()));
    (ended, is_wanted(&printed, wanted))
}

/// Words of no command: none, an unknown word, too many, too few, a word that is no text.
const OTHERS: [&[&[u8]]; 8] = [
    &[b"forwarder"],
    &[b"forwarder", b"checks"],
    &[b"forwarder", b"check"],
    &[b"forwarder", b"check", b"absent", b"absent"],
    &[b"forwarder", b"serve", b"absent"],
    &[b"forwarder", b"serve", b"absent", b"1", b"1"],
    &[b"forwarder", b"replay", b"absent"],
    &[b"forwarder", b"\xff"],
];

#[test]
fn other_arguments_end_with_status_1(rt: HostRuntime) {
    for (place, words) in OTHERS.iter().enumerate() {
        let (ended, prints_nothing) = ended_by(&rt, words, SCRIPT, Wanted::Just(b""));
        assert_eq!(rt; ended, Err(Fault::Usage), "{place}");
        assert!(rt; prints_nothing, "{place}");
    }
    assert_eq!(rt; Fault::Usage.status(), 1);
}

/// Refused numbers of turns: no digits, other signs, a number past 64 bits, and a number of 21
/// digits.
const REFUSED_TURNS: [&[u8]; 8] = [
    b"",
    b"-1",
    b"+1",
    b" 1",
    b"1.5",
    b"0x10",
    b"18446744073709551616",
    b"000000000000000000001",
];

#[test]
fn refused_turns_end_with_status_1(rt: HostRuntime) {
    for (place, number) in REFUSED_TURNS.iter().enumerate() {
        let words = [b"forwarder".as_slice(), b"serve", b"absent", number];
        assert_eq!(rt; read_turns(&Arguments(&words)), None, "{place}");
        let (ended, prints_nothing) = ended_by(&rt, &words, b"", Wanted::Just(b""));
        assert_eq!(rt; ended, Err(Fault::Usage), "{place}");
        assert!(rt; prints_nothing, "{place}");
    }
}

/// Numbers of turns.
const TURNS: [(&[u8], u64); 3] = [
    (b"0", 0),
    (b"00000000000000000007", 7),
    (b"18446744073709551615", u64::MAX),
];

#[test]
fn turns_are_read(rt: HostRuntime) {
    for (text, number) in &TURNS {
        let words = [b"forwarder".as_slice(), b"serve", b"absent", text];
        let turns = read_turns(&Arguments(&words)).map(Turns::number);
        assert_eq!(rt; turns, Some(*number));
    }
    let missing = [b"forwarder".as_slice(), b"serve", b"absent"];
    assert_eq!(rt; read_turns(&Arguments(&missing)), None);
}

#[test]
fn check_prints_its_routes(rt: HostRuntime) -> Result<(), Fail> {
    fs::write(&rt, "checked", CONFIG)?;
    let words = [b"forwarder".as_slice(), b"check", b"checked"];
    let (ended, prints_routes) = ended_by(&rt, &words, b"", Wanted::Just(b"ok 1\n"));
    assert_eq!(rt; ended, Ok(()));
    assert!(rt; prints_routes);
    let words = [b"forwarder".as_slice(), b"check", b"/no/such/file"];
    let (ended, prints_name) = ended_by(&rt, &words, b"", Wanted::Beginning(b"/no/such/file: "));
    assert_eq!(rt; ended, Err(Fault::Stopped(ReplayFault::Device)));
    assert!(rt; prints_name);
    Ok(())
}

/// Names of unreadable files, and the line with the reason, by the system if known.
const UNREAD: [(&[u8], &[u8]); 3] = [
    (
        b"/no/such/file",
        b"/no/such/file: No such file or directory (os error 2)\n",
    ),
    (b".", b".: Is a directory (os error 21)\n"),
    (b"/dev/zero", b"/dev/zero: more than 16777216 octets\n"),
];

#[test]
fn check_says_why_a_file_is_not_read(rt: HostRuntime) {
    for (name, line) in &UNREAD {
        let words = [b"forwarder".as_slice(), b"check", *name];
        let (ended, says_why) = ended_by(&rt, &words, b"", Wanted::Just(*line));
        assert_eq!(rt; ended, Err(Fault::Stopped(ReplayFault::Device)));
        assert!(rt; says_why, "{}", name.escape_ascii());
    }
}

/// A configuration with an unknown key, and a configuration of invalid TOML, each with the fault's
/// number.
const REFUSED: [(&[u8], u8); 2] = [(b"version = 1\nlost = 1\n", 11), (b"version =", 1)];

/// The number of a configuration's fault.
fn number_of(ended: Result<(), Fault>) -> Option<u8> {
    match ended {
        Err(Fault::Stopped(ReplayFault::Config(fault))) => Some(fault.number()),
        _ => None,
    }
}

#[test]
fn check_and_serve_stop_at_a_refused_configuration(rt: HostRuntime) -> Result<(), Fail> {
    for (config, number) in &REFUSED {
        fs::write(&rt, "refused", *config)?;
        let check = [b"forwarder".as_slice(), b"check", b"refused"];
        let serve = [b"forwarder".as_slice(), b"serve", b"refused", b"1"];
        for words in [check.as_slice(), &serve] {
            let (ended, prints_some) = ended_by(&rt, words, b"", Wanted::Some);
            assert_eq!(rt; number_of(ended), Some(*number));
            assert!(rt; prints_some);
        }
    }
    Ok(())
}

#[test]
fn serve_prints_what_it_counted(rt: HostRuntime) -> Result<(), Fail> {
    fs::write(&rt, "served", SERVED)?;
    let words = [b"forwarder".as_slice(), b"serve", b"served", b"0"];
    let (ended, prints_counts) = ended_by(&rt, &words, b"", Wanted::Just(COUNTED));
    assert_eq!(rt; ended, Ok(()));
    assert!(rt; prints_counts);
    Ok(())
}

/// A wire's words take a seed of 32 octets, and a forwarder's hasher a key of 128 bits.
#[test]
fn serve_draws_a_seed_and_a_key(rt: HostRuntime) -> Result<(), Fail> {
    fs::write(&rt, "drawn", SERVED)?;
    let words = [b"forwarder".as_slice(), b"serve", b"drawn", b"0"];
    let host = Host::new(&rt, &words, b"");
    assert_eq!(rt; run(&host), Ok(()));
    assert_eq!(rt; host.octets.get(), 48);
    Ok(())
}

/// The script, with an invalid second event line and a valid third.
const STOPPED: &[u8] = b"version = 1
[[route]]
suffix = \".\"
servers = [\"192.0.2.1:53\"]
---
1000 client udp 10.0.0.7:40000 1234010000010000000000000161076578616d706c650000010001
1020 nothing
1030 tick
";

/// The second line is invalid; the first line's action is printed.
#[test]
fn replay_runs_its_input(rt: HostRuntime) {
    let words = [b"forwarder".as_slice(), b"replay"];
    let (ended, prints_action) = ended_by(&rt, &words, SCRIPT, Wanted::Just(PRINTED));
    assert_eq!(rt; ended, Ok(()));
    assert!(rt; prints_action);
    let (ended, prints_first) = ended_by(&rt, &words, STOPPED, Wanted::Just(PRINTED));
    assert_eq!(rt; ended, Err(Fault::Stopped(ReplayFault::Line(2))));
    assert!(rt; prints_first);
}
