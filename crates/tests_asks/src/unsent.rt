//! Octets that a TCP stream has yet to take. The stream takes a part, nothing or all, or fails.

use linked_list_allocator::LocalHeap;
use plain_values::PlainList;
use refusing_allocator::Refusing;
use std::alloc::Allocator;
use std::io;
use std::io::{ErrorKind, Write};
use std::test::Fail;
use tcp_frames::Unsent;

/// A stream taking at most `most` octets of a write; for `None` a write fails.
#[derive(Drop)]
struct Slow {
    most: Option<usize>,
    took: Vec<u8>,
}

impl Write for Slow {
    fn write(&mut self, octets: &[u8]) -> io::Result<usize> {
        let Some(most) = self.most else {
            return Err(io::Error::from(ErrorKind::ConnectionReset));
        };
        let count = octets.len().min(most);
        self.took.extend_from_slice(&octets[..count])?;
        Ok(count)
    }

    fn flush(&mut self) -> io::Result<()> {
        Ok(())
    }
}

/// Each write of "abcdefgh": the most octets that the stream takes, or `None` for a failure; the
/// number taken, or the error; and the number left.
const WRITES: [(Option<usize>, Result<usize, ErrorKind>, usize); 6] = [
    (Some(0), Ok(0), 8),
    (Some(3), Ok(3), 5),
    (None, Err(ErrorKind::ConnectionReset), 5),
    (Some(0), Ok(0), 5),
    (Some(4), Ok(4), 1),
    (Some(9), Ok(1), 0),
];

/// The result of a write: a number of octets, or the kind of error.
fn sent<A: Allocator + Copy>(
    unsent: &mut Unsent<A>,
    stream: &mut Slow,
) -> Result<usize, ErrorKind> {
    let count = stream.write(unsent.octets()).map_err(|error| error.kind())?;
    unsent.leave_out(count);
    Ok(count)
}

#[test]
fn a_stream_takes_a_part_and_nothing_and_fails(rt: HostRuntime) -> Result<(), Fail> {
    let mut unsent = Unsent::new(rt.alloc());
    unsent.push(PlainList::copied(rt.alloc(), b"abc")?)?;
    unsent.push(PlainList::copied(rt.alloc(), b"defgh")?)?;
    let mut stream = Slow {
        most: None,
        took: Vec::new(rt.alloc()),
    };
    for (most, gives, left) in &WRITES {
        stream.most = *most;
        assert_eq!(rt; sent(&mut unsent, &mut stream), *gives, "{left} left");
        assert_eq!(rt; unsent.len(), *left);
    }
    assert!(rt; unsent.is_empty());
    assert_eq!(rt; stream.took.as_slice(), b"abcdefgh".as_slice());
    Ok(())
}

/// The size of a memory that reports the octets in use.
const MEMORY: usize = 1 << 16;

/// After a stream took most octets, the taken octets are dropped when further octets are put, with
/// a single allocation. If that allocation is refused, nothing changes. Once the stream took all,
/// the memory is free again.
#[test]
fn what_a_stream_took_is_forgotten(rt: HostRuntime) -> Result<(), Fail> {
    let memory = LocalHeap::new(rt.alloc(), MEMORY)?;
    let heap = Refusing::new(&memory);
    let before = memory.used();
    for is_alone in &[false, true] {
        heap.allow(u64::MAX);
        let mut unsent = Unsent::new(&heap);
        unsent.push(PlainList::copied(&heap, b"abcdefgh")?)?;
        let mut stream = Slow {
            most: Some(6),
            took: Vec::new(rt.alloc()),
        };
        assert_eq!(rt; sent(&mut unsent, &mut stream), Ok(6));
        assert!(rt; memory.used() > before);
        let more = PlainList::copied(&heap, b"ij")?;
        let again = PlainList::copied(&heap, b"ij")?;
        if *is_alone {
            heap.refuse_one(0);
        } else {
            heap.allow(0);
        }
        assert!(rt; unsent.push(more).is_err());
        assert_eq!(rt; unsent.len(), 2);
        heap.allow(1);
        unsent.push(again)?;
        assert_eq!(rt; sent(&mut unsent, &mut stream), Ok(4));
        assert_eq!(rt; stream.took.as_slice(), b"abcdefghij".as_slice());
        assert_eq!(rt; memory.used(), before);
    }
    Ok(())
}
