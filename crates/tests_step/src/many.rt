//! A thousand queries under way. With ample memory each is sent, and a step computes no more hashes
//! than with a single query. So nothing is looked up for a question that a step does not serve.

use crate::worked::{SERVER, delivers, sends};
use lru::DefaultHasher;
use network_model::Forwarder;
use std::alloc::{AllocError, Allocator, Global};
use std::cell::Cell;
use std::hash::BuildHasher;
use std::mem::forget;
use std::test::Fail;
use step_values::{Event, Outcome, Path};
use suffix_routes::Config;

/// Counts the hashers made, a hasher for each hash.
#[derive(Drop)]
struct Counting<'a, S> {
    begun: &'a Cell<u64>,
    inner: S,
}

impl<'a, S: BuildHasher> BuildHasher for Counting<'a, S> {
    type Hasher = S::Hasher;

    ghost build_hasher = { λ s. S.build_hasher s.inner };

    fn build_hasher(&self) -> S::Hasher {
        self.begun.set(self.begun.get().saturating_add(1));
        self.inner.build_hasher()
    }
}

type Counted<'a> = Forwarder<Counting<'a, DefaultHasher>>;

/// All names on a single route, and the highest limit of queries.
const CONFIG: &str = r#"version = 1
[limits]
inquiries = 1024
[[route]]
suffix = "."
servers = ["192.0.2.1:53"]
"#;

/// The head of a client's question, with RD.
const ASKS: &[u8] = b"\x12\x34\x01\x00\x00\x01\x00\x00\x00\x00\x00\x00";

/// The head of a reply with an answer, after the identifier.
const ANSWERS: &[u8] = b"\x85\x00\x00\x01\x00\x01\x00\x00\x00\x00";

/// An address of the question's name: 198.51.100.5, for 300 seconds.
const ADDRESS: &[u8] = b"\xc0\x0c\x00\x01\x00\x01\x00\x00\x01\x2c\x00\x04\xc6\x33\x64\x05";

/// The last digit of a number.
fn digit(number: u16) -> u8 {
    b'0' + (number % 10) as u8
}

/// The question for the address of the numbered name: a label of the number's four digits, and
/// `example`.
fn question(number: u16) -> [u8; 18] {
    let mut octets = *b"\x040000\x07example\x00\x00\x01\x00\x01";
    octets[1] = digit(number / 1000);
    octets[2] = digit(number / 100);
    octets[3] = digit(number / 10);
    octets[4] = digit(number);
    octets
}

/// The client asks for the numbered name.
fn asks(alloc: Global, number: u16) -> Result<Event, AllocError> {
    let mut octets = Vec::from_slice(alloc, ASKS)?;
    octets.extend_from_slice(&question(number))?;
    sends(alloc, &octets)
}

/// The server answers the query with this number as identifier. The query's port is 1,024 above.
fn answers(alloc: Global, number: u16) -> Result<Event, AllocError> {
    let mut octets = Vec::from_slice(alloc, &number.to_be_bytes())?;
    octets.extend_from_slice(ANSWERS)?;
    octets.extend_from_slice(&question(number))?;
    octets.extend_from_slice(ADDRESS)?;
    delivers(
        alloc,
        Path::Udp(number.saturating_add(1024)),
        SERVER,
        &octets,
    )
}

/// Random words for a query with this identifier, and the port 1,024 above.
fn words(number: u16) -> [u32; 8] {
    [u32::from(number) * 65_537; 8]
}

/// Whether a step succeeded with `actions` actions.
fn has_actions<A: Allocator + Copy>(
    outcome: &Result<Outcome<A>, AllocError>,
    actions: usize,
) -> bool {
    match outcome {
        Ok(outcome) => outcome.actions.len() == actions,
        Err(_) => false,
    }
}

/// The hashes of this event's step; `None` unless the step succeeds with `actions` actions.
fn hashes_of(
    begun: &Cell<u64>,
    forwarder: &mut Counted<'_>,
    number: u16,
    event: &Event,
    actions: usize,
) -> Option<u64> {
    begun.set(0);
    let outcome = forwarder.step(1000, words(number), event);
    if has_actions(&outcome, actions) {
        Some(begun.get())
    } else {
        None
    }
}

/// The most hashes of any of `count` steps, each sending a query for another name; `None` if a step
/// does anything else.
fn most_of_queries(
    alloc: Global,
    begun: &Cell<u64>,
    forwarder: &mut Counted<'_>,
    count: u16,
) -> Result<Option<u64>, AllocError> {
    let mut most = 0u64;
    for number in 0..count {
        let event = asks(alloc, number)?;
        let Some(hashes) = hashes_of(begun, forwarder, number, &event, 1) else {
            return Ok(None);
        };
        most = most.max(hashes);
    }
    Ok(Some(most))
}

/// The most hashes of any of `count` steps, each sending a query for another name. Then, with these
/// queries under way, the hashes of a question joining the first query, of the first query's reply,
/// which answers both questions, and of a tick. `None` if a step does anything else.
fn hashes_with(
    alloc: Global,
    begun: &Cell<u64>,
    forwarder: &mut Counted<'_>,
    count: u16,
) -> Result<Option<[u64; 4]>, AllocError> {
    let most = most_of_queries(alloc, begun, forwarder, count)?;
    let joins = hashes_of(begun, forwarder, 0, &asks(alloc, 0)?, 0);
    let answered = hashes_of(begun, forwarder, 0, &answers(alloc, 0)?, 3);
    let ticks = hashes_of(begun, forwarder, 0, &Event::Tick, 0);
    match (most, joins, answered, ticks) {
        (Some(most), Some(joins), Some(answered), Some(ticks)) => {
            Ok(Some([most, joins, answered, ticks]))
        }
        _ => Ok(None),
    }
}

/// The result of [`hashes_with`] for a new forwarder. The forwarder is forgotten.
fn hashes(alloc: Global, count: u16) -> Result<Option<[u64; 4]>, Fail> {
    let config = Config::read(alloc, alloc, CONFIG)?;
    let begun = Cell::new(0);
    let hasher = Counting {
        begun: &begun,
        inner: DefaultHasher::default(),
    };
    let mut forwarder = Forwarder::new(alloc, config, hasher)?;
    let hashes = hashes_with(alloc, &begun, &mut forwarder, count);
    forget(forwarder);
    Ok(hashes?)
}

#[test]
fn a_step_with_a_thousand_queries_hashes_as_one_with_one(rt: HostRuntime) -> Result<(), Fail> {
    let one = hashes(rt.alloc(), 1)?.ok_or("one query")?;
    let many = hashes(rt.alloc(), 1000)?.ok_or("a thousand queries")?;
    assert_eq!(rt; many, one);
    assert!(rt; one[0] > 0 && one[2] > 0);
    Ok(())
}
