//! Runs with actions of every kind, in which each call of a wire is refused in turn. All turns are
//! made, nothing is lost, and refusals are counted.

use crate::scripts::{Comes, FIRST, Ran, Run, Turn, ran_anew};
use crate::worked::{CLIENT, QUESTION, REPLY, SECOND, SERVER};
use std::alloc::{AllocError, Global};
use std::test::Fail;
use step_values::Path;
use suffix_routes::Peer;

/// The reply to the third turn's ask.
const THIRD_REPLY: &[u8] =
    b"\x00\x18\x85\x00\x00\x01\x00\x01\x00\x00\x00\x00\x01a\x07example\x00\x00\x01\x00\x01\xc0\x0c\x00\x01\x00\x01\x00\x00\x01\x2c\x00\x04\xc6\x33\x64\x05";

/// A truncated reply (TC, RFC 1035 4.1.1), cut after the record's type.
const CUT_REPLY: &[u8] =
    b"\x00\x08\x87\x00\x00\x01\x00\x01\x00\x00\x00\x00\x01a\x07example\x00\x00\x01\x00\x01\xc0\x0c\x00\x01";

/// The framed reply to the second turn's ask.
const FRAME: &[u8] =
    b"\x00\x2b\x00\x10\x85\x00\x00\x01\x00\x01\x00\x00\x00\x00\x01a\x07example\x00\x00\x01\x00\x01\xc0\x0c\x00\x01\x00\x01\x00\x00\x01\x2c\x00\x04\xc6\x33\x64\x05";

/// The reply SERVFAIL.
const FAILURE: &[u8] =
    b"\x00\x08\x81\x82\x00\x01\x00\x00\x00\x00\x00\x00\x01a\x07example\x00\x00\x01\x00\x01";

/// A referral for the second turn's ask: AA is clear, no answer, and a name server of example (RFC
/// 1034 4.3.1).
const REFERRAL: &[u8] =
    b"\x00\x10\x81\x00\x00\x01\x00\x00\x00\x01\x00\x00\x01a\x07example\x00\x00\x01\x00\x01\xc0\x0e\x00\x02\x00\x01\x00\x00\x0e\x10\x00\x05\x02ns\xc0\x0e";

/// Five questions, equal but for letter case.
const QUESTIONS: [&[u8]; 5] = [
    b"\x00\x01\x01\x00\x00\x01\x00\x00\x00\x00\x00\x00\x01a\x07example\x00\x00\x01\x00\x01",
    b"\x00\x02\x01\x00\x00\x01\x00\x00\x00\x00\x00\x00\x01A\x07example\x00\x00\x01\x00\x01",
    b"\x00\x03\x01\x00\x00\x01\x00\x00\x00\x00\x00\x00\x01a\x07example\x00\x00\x01\x00\x01",
    b"\x00\x04\x01\x00\x00\x01\x00\x00\x00\x00\x00\x00\x01A\x07example\x00\x00\x01\x00\x01",
    b"\x00\x05\x01\x00\x00\x01\x00\x00\x00\x00\x00\x00\x01a\x07example\x00\x00\x01\x00\x01",
];

/// The first ask's reply comes when the time is up, and the second ask's reply answers.
const TIMEOUT: [Turn; 5] = [
    (1000, Comes::Question(CLIENT, &QUESTION)),
    (2499, Comes::Nothing),
    (2500, Comes::Nothing),
    (2600, Comes::Reply(1032, SERVER, REPLY)),
    (2700, Comes::Reply(1048, SECOND, THIRD_REPLY)),
];

/// The reply is truncated, so the server is asked again over TCP.
const CUT: [Turn; 3] = [
    (1000, Comes::Question(CLIENT, &QUESTION)),
    (1020, Comes::Reply(1032, SERVER, CUT_REPLY)),
    (1040, Comes::Stream(0, SERVER, FRAME)),
];

/// Four asks, each with another failure.
const ALL_TRIES: [Turn; 5] = [
    (1000, Comes::Question(CLIENT, &QUESTION)),
    (1000, Comes::Reply(1032, SERVER, FAILURE)),
    (1000, Comes::Reply(1040, SECOND, REFERRAL)),
    (1000, Comes::Gone(Path::Udp(1048))),
    (2500, Comes::Nothing),
];

/// A question from the client with this last octet of the address.
fn asked_by(last: u8, question: &'static [u8]) -> Comes {
    let from = Peer {
        ip: [10, 0, 0, last],
        port: 40000,
    };
    Comes::Question(from, question)
}

/// A single reply answers five questions.
fn joined() -> [Turn; 6] {
    let [first, second, third, fourth, fifth] = QUESTIONS;
    [
        (1000, asked_by(1, first)),
        (1001, asked_by(2, second)),
        (1002, asked_by(3, third)),
        (1003, asked_by(4, fourth)),
        (1004, asked_by(5, fifth)),
        (1020, Comes::Reply(1032, SERVER, REPLY)),
    ]
}

/// A run's result.
#[derive(Clone, Copy, PartialEq, Eq, Debug)]
enum Fate {
    /// The run has fewer calls.
    NoCall,
    /// The call was refused, and counted as a single refusal.
    Counted,
    Other,
}

/// The fate of a run of `turns` turns with this result.
fn fate_of(ran: &Ran, turns: u64) -> Fate {
    if ran.faults == 0 {
        return Fate::NoCall;
    }
    let (all, asks) = ran.unsent;
    let is_one = match (
        ran.served.refused_arrivals,
        all,
        asks,
        ran.served.refused_puts,
    ) {
        (1, 0, 0, 0) | (0, 1, 1, 0) | (0, 1, 0, 1) => true,
        _ => false,
    };
    let is_whole = ran.faults == 1 && ran.served.turns == turns && ran.served.lost == 0;
    if is_one && is_whole && ran.are_given_up {
        Fate::Counted
    } else {
        Fate::Other
    }
}

/// The number of the first refused call that is not counted, and the run's fate. Without such a
/// call: the number of calls, and `NoCall`.
fn first_uncounted(
    alloc: Global,
    has_second: bool,
    script: &[Turn],
) -> Result<(u64, Fate), AllocError> {
    let turns = script.len() as u64;
    for call in 0..64 {
        let run = Run {
            script,
            refuse: &[call],
            has_second,
            turns,
        };
        let fate = fate_of(&ran_anew(alloc, &run)?, turns);
        if fate != Fate::Counted {
            return Ok((call, fate));
        }
    }
    Ok((64, Fate::Counted))
}

/// Two arrivals, and the ask, its path's end and the answer.
#[test]
fn each_call_of_an_answer(rt: HostRuntime) -> Result<(), Fail> {
    assert_eq!(rt;
        first_uncounted(rt.alloc(), false, &FIRST)?,
        (5, Fate::NoCall)
    );
    Ok(())
}

/// Five arrivals, two asks with their ends, and the answer.
#[test]
fn each_call_of_a_timeout(rt: HostRuntime) -> Result<(), Fail> {
    assert_eq!(rt;
        first_uncounted(rt.alloc(), true, &TIMEOUT)?,
        (10, Fate::NoCall)
    );
    Ok(())
}

/// Three arrivals, two asks with their ends, and the answer.
#[test]
fn each_call_of_a_cut_reply(rt: HostRuntime) -> Result<(), Fail> {
    assert_eq!(rt; first_uncounted(rt.alloc(), true, &CUT)?, (8, Fate::NoCall));
    Ok(())
}

/// Six arrivals, the ask, its end, and five answers.
#[test]
fn each_call_of_joined_questions(rt: HostRuntime) -> Result<(), Fail> {
    assert_eq!(rt;
        first_uncounted(rt.alloc(), true, &joined())?,
        (13, Fate::NoCall)
    );
    Ok(())
}

/// Five arrivals, four asks with their ends, and the reply.
#[test]
fn each_call_of_all_tries(rt: HostRuntime) -> Result<(), Fail> {
    assert_eq!(rt;
        first_uncounted(rt.alloc(), true, &ALL_TRIES)?,
        (14, Fate::NoCall)
    );
    Ok(())
}
