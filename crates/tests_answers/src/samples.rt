//! Questions, and their answering chains, from the octets of replies.

ghost use Rattle.std.specs.Prelude.{◌<◌, ◌≤◌, IfOk};
ghost use Rattle.std.specs.List.{AllByRecursion};
ghost use Rattle.answer_builder.specs.Answers.{IsEarlier};

use answer_builder::{Asked, Fault, Sections, Transport, build, build_local, build_stale};
use dns_message::{MessageRef, Question};
use plain_values::{Octets, PlainList};
use record_cache::Held;
use refusing_allocator::Refusing;
use std::alloc::{AllocError, Allocator, Global};
use std::test::Fail;
use suffix_routes::{Config, RouteId};
use trust_rank::{Piece, Walk, pieces};

/// The moment of all replies, in milliseconds.
pub(crate) const ACCEPTED: u64 = 1020;

/// a.example has an address for five minutes.
pub(crate) const ADDRESS: &str =
    "0008850000010001000000000161076578616d706c650000010001c00c000100010000012c0004c6336405";

/// b.example is an alias of a.example; a.example has an address for ten minutes.
pub(crate) const ALIAS: &str =
    "0018850000010002000000000162076578616d706c650000010001c00c000500010000003c00040161c00ec02700010001000002580004c6336409";

/// x.example does not exist; the SOA says ten minutes.
pub(crate) const NAME_ERROR: &str =
    "0008850300010000000100000178076578616d706c650000010001c00e0006000100000e10001d026e73c00e0168c00e0000000100000002000000030000000400000258";

/// a.example is an alias of h.lan, for a minute.
pub(crate) const TO_LAN: &str =
    "0008850000010001000000000161076578616d706c650000010001c00c000500010000003c00070168036c616e00";

/// A single route for all names.
const CONFIG: &str = r#"version = 1
[[route]]
suffix = "."
servers = ["192.0.2.1:53"]
"#;

/// The pieces of a reply for its own question.
fn walked<'h>(
    table_heap: Global,
    heap: &'h Refusing<Global>,
    reply: &[u8],
) -> Result<Walk<&'h Refusing<Global>>, Fail> {
    let config = Config::read(table_heap, heap, CONFIG)?;
    let view = MessageRef::view(reply)?;
    let message = view.read_whole(heap)?;
    let question = view.question(heap)?;
    Ok(pieces(heap, &message, &question, RouteId { place: 0 }, &config)?)
}

/// A question with RD.
pub(crate) fn asked<A: Allocator>(id: u16, question: Question<A>) -> Asked<A>
    ensures { result.opcode < 16 }
{
    Asked {
        id,
        opcode: 0,
        rd: true,
        question: Some(question),
    }
}

/// The pieces, all accepted at [`ACCEPTED`], not after `moment`.
fn chain_of<A: Allocator + Copy>(
    alloc: A,
    pieces: &[Piece<A>],
    moment: u64,
) -> Result<PlainList<Held<A>, A>, AllocError>
    requires { 1020 ≤ moment }
    ensures { IfOk result (λ chain. AllByRecursion (IsEarlier moment) chain) }
{
    let mut chain = PlainList::new(alloc);
    for piece in pieces {
        chain.push(Held {
            piece: piece.copy(alloc)?,
            accepted: ACCEPTED,
        })?;
    }
    Ok(chain)
}

/// An answer: the octets, or too large, or out of memory.
pub(crate) type Built<'h> = Result<Octets<&'h Refusing<Global>>, Fault>;

/// The kind of answer built from the pieces.
#[derive(Clone, Copy)]
pub(crate) enum Kind {
    /// With the seconds left, at this many milliseconds after acceptance.
    Left(u64),
    /// With stale pieces from this index on, at the address's expiry.
    Stale(usize),
    /// Of a denying route, a second after acceptance.
    Local,
}

/// An answer's moment, in milliseconds.
fn moment_of(kind: Kind) -> u64
    ensures { 1020 ≤ result }
{
    match kind {
        Kind::Left(after) => ACCEPTED.saturating_add(after),
        Kind::Stale(_) => ACCEPTED + 300_000,
        Kind::Local => ACCEPTED + 1000,
    }
}

/// A question, and the reply with the answering pieces, both in octets.
#[derive(Clone, Copy)]
pub(crate) struct Case<'c> {
    pub kind: Kind,
    pub question: &'c [u8],
    pub reply: &'c [u8],
}

/// The answer to a question with `growths` allocations granted.
pub(crate) fn answer<'h>(
    table_heap: Global,
    heap: &'h Refusing<Global>,
    case: Case<'_>,
    transport: Transport,
    growths: u64,
) -> Result<Built<'h>, Fail> {
    let walk = walked(table_heap, heap, case.reply)?;
    let moment = moment_of(case.kind);
    let list = chain_of(heap, walk.pieces.as_slice(), moment)?;
    let chain = list.as_slice();
    let asked = asked(0x1234, MessageRef::view(case.question)?.question(heap)?);
    heap.allow(growths);
    let built = match case.kind {
        Kind::Left(_) => build(heap, &asked, chain, moment, transport),
        Kind::Stale(stale) if stale <= chain.len() => {
            build_stale(heap, &asked, chain, stale, moment, transport)
        }
        Kind::Stale(_) => return Err(Fail::from("too few pieces")),
        Kind::Local => build_local(heap, &asked, chain, moment, transport),
    };
    heap.allow(u64::MAX);
    Ok(built)
}

/// The octets of a question's answer, with ample memory; `None` if too large.
pub(crate) fn text<'h>(
    table_heap: Global,
    heap: &'h Refusing<Global>,
    case: Case<'_>,
    transport: Transport,
) -> Result<Option<Octets<&'h Refusing<Global>>>, Fail> {
    match answer(table_heap, heap, case, transport, u64::MAX)? {
        Ok(text) => Ok(Some(text)),
        Err(Fault::TooLarge) => Ok(None),
        Err(Fault::Memory) => Err(Fail::from("memory ran out")),
    }
}

/// Writes the answer over UDP from a piece, or from an alias and a piece, into a vector.
fn put<A: Allocator + Copy>(
    alloc: A,
    octets: &mut Vec<u8, A>,
    asked: &Asked<A>,
    chain: &[Held<A>],
    moment: u64,
) -> Result<(), Fault>
    requires { asked.now.opcode < 16 }
{
    let asked = asked.borrowed();
    match chain {
        [only] if only.accepted <= moment => {
            let sections = Sections::answer(alloc, &[only], moment)?;
            sections.put(alloc, octets, asked, Transport::Udp)
        }
        [alias, last] if alias.accepted <= moment && last.accepted <= moment => {
            let sections = Sections::answer(alloc, &[alias, last], moment)?;
            sections.put(alloc, octets, asked, Transport::Udp)
        }
        _ => Err(Fault::TooLarge),
    }
}

/// The number of allocations, refused in turn, until the answer is in the vector; `None` for
/// another fault, or if no end is met.
fn growths_of<'h>(
    heap: &'h Refusing<Global>,
    octets: &mut Vec<u8, &'h Refusing<Global>>,
    asked: &Asked<&'h Refusing<Global>>,
    chain: &[Held<&'h Refusing<Global>>],
) -> Option<u64>
    requires { asked.now.opcode < 16 }
{
    for growths in 0..100u64 {
        heap.allow(growths);
        let done = put(heap, octets, asked, chain, ACCEPTED);
        heap.allow(u64::MAX);
        match done {
            Ok(()) => return Some(growths),
            Err(Fault::Memory) => (),
            Err(Fault::TooLarge) => return None,
        }
    }
    None
}

/// The number of allocations refused until the answer from a reply to its own question is written,
/// over UDP, into a vector with room.
pub(crate) fn growths_beside_room(table_heap: Global, reply: &[u8]) -> Result<Option<u64>, Fail> {
    let heap = Refusing::new(table_heap);
    let walk = walked(table_heap, &heap, reply)?;
    let chain = chain_of(&heap, walk.pieces.as_slice(), ACCEPTED)?;
    let asked = asked(0x1234, MessageRef::view(reply)?.question(&heap)?);
    let mut octets = Vec::with_capacity(&heap, 512)?;
    Ok(growths_of(&heap, &mut octets, &asked, chain.as_slice()))
}
