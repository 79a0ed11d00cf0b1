//! Look-ups of a listed ask, allocations of the list of asks, and a refusal's text.

ghost use Rattle.std.specs.Prelude.{◌≡◌, IfOk};

use dns_message::Question;
use dns_name::{Name, NameFault};
use outstanding::{Ask, Inquiries, KeyedAsk, Path, QuestionKey, Refusal, draw};
use refusing_allocator::Refusing;
use std::alloc::Global;
use std::test::Fail;
use suffix_routes::{Peer, RouteId};

/// An ask for a name's address, sent to 192.0.2.1:53.
fn ask_for<'a>(
    heap: &'a Refusing<Global>,
    name: &str,
    path: Path,
    asked: u64,
) -> Result<Ask<&'a Refusing<Global>>, NameFault>
    ensures { IfOk result (λ ask. (ask.path ≡ path) × (ask.asked ≡ asked)) }
{
    Ok(Ask {
        question: Question {
            name: Name::from_text(heap, name)?,
            kind: 1,
            class: 1,
        },
        route: RouteId { place: 0 },
        server: 0,
        peer: Peer {
            ip: [192, 0, 2, 1],
            port: 53,
        },
        used: 1,
        path,
        id: 8,
        asked,
    })
}

/// Whether the ask equals `ask_for`'s ask for a.example on port 1032 at 1000.
fn is_worked<'a>(ask: &Ask<&'a Refusing<Global>>) -> bool {
    let question = &ask.question;
    let is_asked = question.name.octets() == b"\x01a\x07example".as_slice()
        && question.kind == 1
        && question.class == 1;
    let is_sent = ask.route.place == 0
        && ask.server == 0
        && ask.peer.ip == [192, 0, 2, 1]
        && ask.peer.port == 53;
    is_asked
        && is_sent
        && ask.used == 1
        && ask.path == Path::Udp(1032)
        && ask.id == 8
        && ask.asked == 1000
}

#[test]
fn a_listed_ask_is_found(rt: HostRuntime) -> Result<(), Fail> {
    let heap = Refusing::new(rt.alloc());
    let ask = ask_for(&heap, "a.example", Path::Udp(1032), 1000)?;
    let mut inquiries = Inquiries::new(&heap, 1);
    let is_begun = inquiries.begin(KeyedAsk::of(ask)).is_ok();
    let is_found = match inquiries.by_path(Path::Udp(1032)) {
        Some(found) => is_worked(found.ask()),
        None => false,
    };
    let is_elsewhere = inquiries.by_path(Path::Udp(1033)).is_some();
    assert!(rt; is_begun && is_found && !is_elsewhere);
    Ok(())
}

/// A name of 33 octets, too long to be kept in place.
const LONG: &str = "a.abcdefghijklmnopqrstuv.example";

/// Grants `growths` allocations, refuses the next, alone or with all later allocations, and returns
/// whether an ask is listed.
fn is_begun(heap: &Refusing<Global>, growths: u64, is_alone: bool) -> Result<bool, Fail> {
    let ask = ask_for(heap, LONG, Path::Udp(1024), 1000)?;
    let mut inquiries = Inquiries::new(heap, 1);
    if is_alone {
        heap.refuse_one(growths);
    } else {
        heap.allow(growths);
    }
    let begun = inquiries.begin(KeyedAsk::of(ask));
    heap.allow(u64::MAX);
    match begun {
        Ok(()) => Ok(true),
        Err((_, Refusal::Memory)) => Ok(false),
        Err((_, Refusal::Full)) => Err(Fail::from("a full list")),
    }
}

#[test]
fn each_growth_of_begin_is_refused(rt: HostRuntime) -> Result<(), Fail> {
    let heap = Refusing::new(rt.alloc());
    for is_alone in &[false, true] {
        for growths in 0..5 {
            assert!(rt;
                !is_begun(&heap, growths, *is_alone)?,
                "with {growths} granted"
            );
        }
        assert!(rt; is_begun(&heap, 5, *is_alone)?);
    }
    Ok(())
}

/// A single allowed allocation stays unspent while a list is made, and cleared unused.
#[test]
fn an_empty_list_takes_no_memory(rt: HostRuntime) {
    let heap = Refusing::new(rt.alloc());
    heap.allow(1);
    let mut inquiries = Inquiries::new(&heap, 1024);
    inquiries.clear();
    let is_left = Box::new(&heap, 0u8).is_ok();
    let is_last = Box::new(&heap, 0u8).is_err();
    assert!(rt; inquiries.len() == 0 && is_left && is_last);
}

/// Whether draws and look-ups find the listed ask and similar asks.
fn are_found<'a>(
    inquiries: &Inquiries<&'a Refusing<Global>>,
    question: &Question<&'a Refusing<Global>>,
) -> bool {
    draw([0; 8], inquiries, None).is_none()
        && draw([0; 8], inquiries, Some(1024)) == Some((0, 1024))
        && draw([u32::MAX; 8], inquiries, None) == Some((65535, 2047))
        && inquiries.next_due(1500) == Some((2500, Path::Udp(1024)))
        && inquiries.by_question(&QuestionKey::of(question)).is_some()
        && inquiries.by_path(Path::Udp(1024)).is_some()
}

/// A single allowed allocation stays unspent over all other calls, and over a `begin` with room
/// left.
#[test]
fn only_begin_takes_memory(rt: HostRuntime) -> Result<(), Fail> {
    let heap = Refusing::new(rt.alloc());
    let first = ask_for(&heap, "a.example", Path::Udp(1024), 1000)?;
    let second = ask_for(&heap, "A.EXAMPLE", Path::Tcp(0), 2500)?;
    let mut inquiries = Inquiries::new(&heap, 1);
    assert!(rt; inquiries.begin(KeyedAsk::of(first)).is_ok());
    heap.allow(1);
    let are_found = are_found(&inquiries, &second.question);
    let _ended = inquiries.replace(Path::Udp(1024), second);
    let is_begun_again = match inquiries.end(Path::Tcp(0)) {
        Some(ended) => inquiries.begin(ended).is_ok(),
        None => false,
    };
    inquiries.clear();
    let is_left = Box::new(&heap, 0u8).is_ok();
    assert!(rt; are_found && is_begun_again && is_left);
    Ok(())
}

#[test]
fn what_is_said_of_a_refusal(rt: HostRuntime) -> Result<(), Fail> {
    let heap = rt.alloc();
    let full = format!(in heap; "{}", Refusal::Full)?;
    assert_eq!(rt; full.as_str(), "as many asks are listed as there may be");
    let memory = format!(in heap; "{}", Refusal::Memory)?;
    assert_eq!(rt; memory.as_str(), "memory ran out");
    Ok(())
}
