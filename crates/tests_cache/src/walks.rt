//! Replies in octets, and a fact that no contract can state: allocations succeed if there is
//! memory.

ghost use Rattle.dns_message.specs.Messages.{HasShapes};

use crate::samples::{ALIAS, CONFIG, NAME_ERROR};
use dns_message::{Message, MessageRef, Question};
use refusing_allocator::Refusing;
use std::alloc::Global;
use std::test::Fail;
use suffix_routes::{Config, RouteId};
use trust_rank::{Piece, pieces};

/// A reply that counts forty addresses, up to the addresses.
const FORTY: &str = "0008850000010028000000000161076578616d706c650000010001";

/// Forty addresses of a.example: twenty, then the twenty again.
fn twenty_twice(heap: Global) -> Result<Vec<u8>, Fail> {
    let mut octets = hex::decode(heap, FORTY)?;
    for place in 0..40u8 {
        octets.extend_from_slice(
            b"\xc0\x0c\x00\x01\x00\x01\x00\x00\x01\x2c\x00\x04\xc0\x00\x02".as_slice(),
        )?;
        octets.push(place % 20)?;
    }
    Ok(octets)
}

type Heap<'a> = &'a Refusing<Global>;

/// The values to make, with each allocation refused in turn.
#[derive(Clone, Copy)]
enum Made {
    /// The pieces of a reply.
    Pieces,
    /// A copy of each piece, of at most three pieces.
    Copies,
}

/// For each value, the number of allocations refused in turn.
type Refused = [Option<u64>; 3];

/// The number of a copy's allocations.
fn refused_copies<'h>(heap: Heap<'h>, piece: &Piece<Heap<'h>>) -> u64 {
    for growths in 0..100u64 {
        heap.allow(growths);
        let is_made = piece.copy(heap).is_ok();
        heap.allow(u64::MAX);
        if is_made {
            return growths;
        }
    }
    100
}

/// The number of allocations of each piece's copy.
fn refused_of_copies<'h>(heap: Heap<'h>, pieces: &[Piece<Heap<'h>>]) -> Result<Refused, Fail> {
    let mut refused = [None; 3];
    if pieces.len() > refused.len() {
        return Err(Fail::from("more than three pieces"));
    }
    for (count, piece) in refused.iter_mut().zip(pieces) {
        *count = Some(refused_copies(heap, piece));
    }
    Ok(refused)
}

/// The number of allocations of the pieces, with this message as the reply to this question.
fn refused_of_pieces<'h>(
    heap: Heap<'h>,
    message: &Message<Heap<'h>>,
    question: &Question<Heap<'h>>,
    config: &Config<Heap<'h>>,
) -> u64
    requires { HasShapes message.now }
{
    for growths in 0..200u64 {
        heap.allow(growths);
        let is_made = pieces(heap, message, question, RouteId { place: 0 }, config).is_ok();
        heap.allow(u64::MAX);
        if is_made {
            return growths;
        }
    }
    200
}

/// The number of allocations of each value, with this message as the reply to this question.
fn refused_in<'h>(
    heap: Heap<'h>,
    message: &Message<Heap<'h>>,
    question: &Question<Heap<'h>>,
    config: &Config<Heap<'h>>,
    made: Made,
) -> Result<Refused, Fail>
    requires { HasShapes message.now }
{
    match made {
        Made::Pieces => {
            let refused = refused_of_pieces(heap, message, question, config);
            Ok([Some(refused), None, None])
        }
        Made::Copies => {
            let walk = pieces(heap, message, question, RouteId { place: 0 }, config)?;
            refused_of_copies(heap, walk.pieces.as_slice())
        }
    }
}

/// The number of allocations of each value, with a message in octets as the reply to its own
/// question.
fn refused_of<'h>(
    heap: Heap<'h>,
    config: &Config<Heap<'h>>,
    octets: &[u8],
    made: Made,
) -> Result<Refused, Fail> {
    let view = MessageRef::view(octets)?;
    let question = view.question(heap)?;
    let message = view.read_whole(heap)?;
    refused_in(heap, &message, &question, config, made)
}

/// The number of allocations of each value for a message in octets, with a configuration serving
/// all names.
fn refused_of_octets(alloc: Global, octets: &[u8], made: Made) -> Result<Refused, Fail> {
    let heap = Refusing::new(alloc);
    let config = Config::read(alloc, &heap, CONFIG)?;
    refused_of(&heap, &config, octets, made)
}

/// The number of allocations of each value for a message in hexadecimal digits.
fn refused_of_digits(alloc: Global, digits: &str, made: Made) -> Result<Refused, Fail> {
    let octets = hex::decode(alloc, digits)?;
    refused_of_octets(alloc, &octets, made)
}

/// The number of allocations of the pieces of [`twenty_twice`].
fn refused_of_twenty(alloc: Global) -> Result<Refused, Fail> {
    let octets = twenty_twice(alloc)?;
    refused_of_octets(alloc, &octets, Made::Pieces)
}

#[test]
fn each_growth_is_refused(rt: HostRuntime) -> Result<(), Fail> {
    let alias = refused_of_digits(rt.alloc(), ALIAS, Made::Pieces)?;
    let name_error = refused_of_digits(rt.alloc(), NAME_ERROR, Made::Pieces)?;
    let twenty = refused_of_twenty(rt.alloc())?;
    assert_eq!(rt;
        (alias[0], name_error[0], twenty[0]),
        (Some(5), Some(3), Some(6))
    );
    Ok(())
}

/// Names and data up to 30 octets do not allocate. A set of several records takes an allocation for
/// the list. A denial takes allocations for the SOA's data and for the SOA's box.
#[test]
fn each_growth_of_a_copy_is_refused(rt: HostRuntime) -> Result<(), Fail> {
    let alias = refused_of_digits(rt.alloc(), ALIAS, Made::Copies)?;
    assert_eq!(rt; alias, [Some(0), Some(1), None]);
    let name_error = refused_of_digits(rt.alloc(), NAME_ERROR, Made::Copies)?;
    assert_eq!(rt; name_error, [Some(2), None, None]);
    Ok(())
}
