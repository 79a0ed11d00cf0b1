//! Frames in concrete octets (RFC 1035 4.2.2), their allocations, and a fault's text.

use refusing_allocator::Refusing;
use std::alloc::{AllocError, Global};
use std::test::Fail;
use tcp_frames::{FrameFault, FrameReader, frame};

#[test]
fn a_frame_is_the_length_and_the_octets(rt: HostRuntime) -> Result<(), Fail> {
    let heap = rt.alloc();
    let mut message = Vec::from_elem(heap, b'a', 65_535)?;
    let longest = frame(heap, message.as_slice())?;
    assert_eq!(rt; longest.as_slice().len(), 65_537);
    assert!(rt; longest.as_slice().starts_with(b"\xff\xffa"));
    message.push(b'a')?;
    assert_eq!(rt;
        frame(heap, message.as_slice()).err(),
        Some(FrameFault::TooLong)
    );
    Ok(())
}

/// The message after each octet of the frames of "abc" and of no octets.
const OCTET_BY_OCTET: [(u8, Option<&[u8]>); 7] = [
    (0, None),
    (3, None),
    (b'a', None),
    (b'b', None),
    (b'c', Some(b"abc")),
    (0, None),
    (0, Some(b"")),
];

/// Whether a reader, fed a further octet, returns this message, or none.
fn gives(
    reader: &mut FrameReader<Global>,
    octet: u8,
    wanted: Option<&[u8]>,
) -> Result<bool, AllocError> {
    reader.feed(&[octet])?;
    match reader.take()? {
        Some(message) => Ok(wanted == Some(message.as_slice())),
        None => Ok(wanted.is_none()),
    }
}

#[test]
fn a_stream_that_comes_octet_by_octet(rt: HostRuntime) -> Result<(), Fail> {
    let octets = frame(rt.alloc(), b"abc")?;
    assert_eq!(rt; octets.as_slice(), b"\x00\x03abc".as_slice());
    let mut reader = FrameReader::new(rt.alloc());
    for (octet, wanted) in &OCTET_BY_OCTET {
        assert!(rt; gives(&mut reader, *octet, *wanted)?, "{octet}");
    }
    Ok(())
}

#[test]
fn what_is_said_of_a_fault(rt: HostRuntime) -> Result<(), Fail> {
    let heap = rt.alloc();
    let memory = format!(in heap; "{}", FrameFault::Memory)?;
    assert_eq!(rt; memory.as_str(), "memory ran out");
    let too_long = format!(in heap; "{}", FrameFault::TooLong)?;
    assert_eq!(rt; too_long.as_str(), "a message of over 65,535 octets");
    Ok(())
}

/// Refuses the next allocation, alone or with all later allocations.
fn refuse(heap: &Refusing<Global>, is_alone: bool) {
    if is_alone {
        heap.refuse_one(0);
    } else {
        heap.allow(0);
    }
}

/// Whether each allocation of a reader is refused in turn and changes nothing: for a piece, for the
/// room of a further piece, and for the message of both.
fn are_refused_in_turn<'a>(
    heap: &'a Refusing<Global>,
    reader: &mut FrameReader<&'a Refusing<Global>>,
    is_alone: bool,
) -> Result<bool, AllocError> {
    refuse(heap, is_alone);
    let is_piece_refused = reader.feed(b"\x00\x41a").is_err();
    heap.allow(1);
    reader.feed(b"\x00\x41b")?;
    refuse(heap, is_alone);
    let is_more_refused = reader.feed(&[b'a'; 64]).is_err();
    heap.allow(1);
    reader.feed(&[b'c'; 64])?;
    refuse(heap, is_alone);
    let is_message_refused = reader.take().is_err();
    Ok(is_piece_refused && is_more_refused && is_message_refused)
}

/// Whether a message of 65 octets is taken with a single allocation.
fn is_taken<'a>(
    heap: &'a Refusing<Global>,
    reader: &mut FrameReader<&'a Refusing<Global>>,
) -> Result<bool, AllocError> {
    heap.allow(1);
    match reader.take()? {
        Some(message) => Ok(
            message.as_slice().len() == 65
                && message.as_slice().starts_with(b"bcc")
                && message.as_slice().ends_with(b"ccc"),
        ),
        None => Ok(false),
    }
}

#[test]
fn each_growth_of_a_reader_is_refused(rt: HostRuntime) -> Result<(), Fail> {
    let heap = Refusing::new(rt.alloc());
    for is_alone in &[false, true] {
        let mut reader = FrameReader::new(&heap);
        assert!(rt; are_refused_in_turn(&heap, &mut reader, *is_alone)?);
        assert!(rt; is_taken(&heap, &mut reader)?);
    }
    Ok(())
}

#[test]
fn each_growth_of_a_frame_is_refused(rt: HostRuntime) -> Result<(), Fail> {
    let heap = Refusing::new(rt.alloc());
    for is_alone in &[false, true] {
        refuse(&heap, *is_alone);
        assert_eq!(rt; frame(&heap, b"a").err(), Some(FrameFault::Memory));
    }
    heap.allow(1);
    let octets = frame(&heap, b"c")?;
    assert_eq!(rt; octets.as_slice(), b"\x00\x01c".as_slice());
    heap.allow(0);
    assert_eq!(rt; frame(&heap, &[b'a'; 5000]).err(), Some(FrameFault::Memory));
    heap.allow(1);
    let octets = frame(&heap, &[b'a'; 5000])?;
    assert_eq!(rt; octets.as_slice().len(), 5002);
    Ok(())
}

/// Two of the longest frames, one after the other.
fn two_longest(alloc: Global) -> Result<Vec<u8>, AllocError> {
    let mut piece = Vec::with_capacity(alloc, 131_074)?;
    for octet in b"ab" {
        piece.extend_from_slice(&[0xff, 0xff])?;
        for _ in 0..65_535u32 {
            piece.push(*octet)?;
        }
    }
    Ok(piece)
}

/// Whether the next message's allocation is refused, and the message, once granted, is 65,535 times
/// this octet.
fn is_refused_then_taken<'a>(
    heap: &'a Refusing<Global>,
    reader: &mut FrameReader<&'a Refusing<Global>>,
    octet: u8,
) -> Result<bool, AllocError> {
    heap.allow(0);
    let is_refused = reader.take().is_err();
    heap.allow(1);
    match reader.take()? {
        Some(message) => {
            let octets = message.as_slice();
            Ok(is_refused && octets.len() == 65_535 && octets.iter().all(|other| *other == octet))
        }
        None => Ok(false),
    }
}

#[test]
fn two_of_the_longest_frames_in_one_piece(rt: HostRuntime) -> Result<(), Fail> {
    let piece = two_longest(rt.alloc())?;
    let heap = Refusing::new(rt.alloc());
    let mut reader = FrameReader::new(&heap);
    heap.allow(0);
    assert!(rt; reader.feed(piece.as_slice()).is_err());
    heap.allow(1);
    reader.feed(piece.as_slice())?;
    for octet in b"ab" {
        assert!(rt; is_refused_then_taken(&heap, &mut reader, *octet)?);
    }
    assert!(rt; reader.take()?.is_none());
    Ok(())
}

#[test]
fn room_is_used_again(rt: HostRuntime) -> Result<(), Fail> {
    let heap = Refusing::new(rt.alloc());
    heap.allow(1);
    let mut reader = FrameReader::new(&heap);
    reader.feed(&[0])?;
    for _frame in 0..10_000u32 {
        reader.feed(&[0, 0])?;
        assert!(rt; reader.take()?.is_some());
    }
    Ok(())
}
