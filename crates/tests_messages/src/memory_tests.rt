//! Each allocation of a call is refused in turn, alone and with all later allocations, until the
//! call returns the right value. Copies are compared with their originals.

use crate::equal::{is_equal_question, is_equal_record};
use crate::messages::{LONG_REPLY, LONG_TEXT, REPLY};
use dns_message::{Fault, MessageRef, Record, write};
use refusing_allocator::Refusing;
use std::alloc::{AllocError, Global};
use std::test::Fail;

/// A call that allocates.
#[derive(Clone, Copy)]
enum Call {
    Question,
    QuestionCopy,
    RecordCopy,
    DataCopy,
    DataName,
    ReadWhole,
    Write,
}

/// Each call, its message, and the least and the most allocations.
///
/// Octets in place take no allocation. A copy takes an allocation for each other list of octets.
/// Reading takes an allocation for the question's name, for an owner, for the data, and for each of
/// the message's two lists. Writing takes an allocation for the octets, and another for the table
/// of more than 16 names.
const CALLS: [(Call, &[u8], u64, u64); 17] = [
    (Call::Question, REPLY, 0, 0),
    (Call::Question, LONG_REPLY, 1, 1),
    (Call::QuestionCopy, REPLY, 0, 0),
    (Call::QuestionCopy, LONG_REPLY, 1, 1),
    (Call::RecordCopy, REPLY, 0, 0),
    (Call::RecordCopy, LONG_REPLY, 2, 2),
    (Call::DataCopy, REPLY, 0, 0),
    (Call::DataCopy, LONG_REPLY, 1, 1),
    (Call::DataCopy, LONG_TEXT, 1, 1),
    (Call::RecordCopy, LONG_TEXT, 1, 1),
    (Call::DataName, REPLY, 0, 0),
    (Call::DataName, LONG_REPLY, 1, 1),
    (Call::ReadWhole, REPLY, 2, 60),
    (Call::ReadWhole, LONG_REPLY, 5, 60),
    (Call::ReadWhole, LONG_TEXT, 3, 60),
    (Call::Write, REPLY, 1, 60),
    (Call::Write, LONG_REPLY, 2, 60),
];

/// The number of the refused allocation, from 0, and whether only this allocation is refused.
#[derive(Clone, Copy)]
struct Refused {
    growth: u64,
    is_alone: bool,
}

/// Refuses this allocation from now on.
fn refuse(heap: &Refusing<Global>, refused: Refused) {
    if refused.is_alone {
        heap.refuse_one(refused.growth);
    } else {
        heap.allow(refused.growth);
    }
}

fn read_question(heap: &Refusing<Global>, octets: &[u8], refused: Refused) -> Result<bool, Fault> {
    let view = MessageRef::view(octets)?;
    refuse(heap, refused);
    let question = view.question(heap)?;
    Ok(view.question_is(&question))
}

fn copy_question(heap: &Refusing<Global>, octets: &[u8], refused: Refused) -> Result<bool, Fault> {
    let question = MessageRef::view(octets)?.question(heap)?;
    refuse(heap, refused);
    let copy = question.copy(heap)?;
    Ok(is_equal_question(&question, &copy))
}

/// Copies a record or its data, or reads the name in the data. A name in data ends with a zero
/// octet.
fn copy_record<'a>(
    heap: &'a Refusing<Global>,
    call: Call,
    record: &Record<&'a Refusing<Global>>,
) -> Result<bool, AllocError> {
    match call {
        Call::RecordCopy => Ok(is_equal_record(record, &record.copy(heap)?)),
        Call::DataCopy => Ok(record.rdata.octets() == record.rdata.copy(heap)?.octets()),
        _ => match record.rdata.name(heap)? {
            Some(name) => Ok(record.rdata.octets().strip_suffix(b"\x00") == Some(name.octets())),
            None => Ok(record.kind == 1),
        },
    }
}

/// Copies the message's only answer or its data, or reads the name in the data.
fn copy_answer(
    heap: &Refusing<Global>,
    call: Call,
    octets: &[u8],
    refused: Refused,
) -> Result<bool, Fault> {
    let message = MessageRef::view(octets)?.read_whole(heap)?;
    refuse(heap, refused);
    match message.answers.as_slice() {
        [record] => Ok(copy_record(heap, call, record)?),
        _ => Ok(false),
    }
}

fn read_message(heap: &Refusing<Global>, octets: &[u8], refused: Refused) -> Result<bool, Fault> {
    let view = MessageRef::view(octets)?;
    refuse(heap, refused);
    let message = view.read_whole(heap)?;
    Ok(message.answers.as_slice().len() == 1)
}

fn write_message(heap: &Refusing<Global>, octets: &[u8], refused: Refused) -> Result<bool, Fault> {
    let message = MessageRef::view(octets)?.read_whole(heap)?;
    refuse(heap, refused);
    Ok(write(heap, &message, 512)?.as_slice() == octets)
}

/// Makes a call with ample memory for the arguments, and returns whether the value is right.
/// `Memory` if an allocation was refused.
fn make(
    heap: &Refusing<Global>,
    call: Call,
    octets: &[u8],
    refused: Refused,
) -> Result<bool, Fault> {
    heap.allow(u64::MAX);
    match call {
        Call::Question => read_question(heap, octets, refused),
        Call::QuestionCopy => copy_question(heap, octets, refused),
        Call::ReadWhole => read_message(heap, octets, refused),
        Call::Write => write_message(heap, octets, refused),
        Call::RecordCopy | Call::DataCopy | Call::DataName => {
            copy_answer(heap, call, octets, refused)
        }
    }
}

/// The number of allocations of a call, refused in turn until the value is right. 64 if the value
/// stays wrong, or for any fault but out of memory.
fn growths_of(heap: &Refusing<Global>, call: Call, octets: &[u8], is_alone: bool) -> u64 {
    for growth in 0..64u64 {
        match make(heap, call, octets, Refused { growth, is_alone }) {
            Ok(true) => return growth,
            Err(Fault::Memory) => {}
            _ => return 64,
        }
    }
    64
}

#[test]
fn each_refused_growth_is_want_of_memory(rt: HostRuntime) {
    let heap = Refusing::new(rt.alloc());
    for (call, octets, least, most) in &CALLS {
        let growths = growths_of(&heap, *call, octets, false);
        let alone = growths_of(&heap, *call, octets, true);
        assert!(rt;
            *least <= growths && growths <= *most && alone == growths,
            "{growths} of {least} to {most}, and {alone} alone"
        );
    }
}

/// A reply with `answers` answers to a question for `a`. No two names are equal.
fn with_answers(alloc: Global, answers: u8) -> Result<Vec<u8>, AllocError> {
    let mut octets = Vec::from_slice(alloc, b"\x12\x34\x85\x00\x00\x01\x00")?;
    octets.push(answers)?;
    octets.extend_from_slice(b"\x00\x00\x00\x00\x01a\x00\x00\x10\x00\x01".as_slice())?;
    for answer in 0..answers {
        octets.extend_from_slice(&[1, answer.wrapping_add(b'b'), 0])?;
        octets.extend_from_slice(b"\x00\x10\x00\x01\x00\x00\x00\x00\x00\x00".as_slice())?;
    }
    Ok(octets)
}

/// Numbers of answers, for 9, 16, 17 and 25 names in a text.
const ANSWERS: [u8; 4] = [8, 15, 16, 24];

#[test]
fn each_growth_of_a_text_of_many_names_is_refused(rt: HostRuntime) -> Result<(), Fail> {
    let heap = Refusing::new(rt.alloc());
    for answers in &ANSWERS {
        let octets = with_answers(rt.alloc(), *answers)?;
        let growths = growths_of(&heap, Call::Write, octets.as_slice(), false);
        let alone = growths_of(&heap, Call::Write, octets.as_slice(), true);
        assert!(rt;
            (1..60).contains(&growths) && alone == growths,
            "{answers}: {growths}, {alone}"
        );
    }
    Ok(())
}
