//! Record sets and denials of a reply.

ghost use Rattle.std.specs.Prelude.{◌≡◌, IfOk};
ghost use Rattle.trust_rank.specs.Formed.{IsPiece};
ghost use Rattle.trust_rank.specs.Values.{body_of, unboxed};

use crate::rows::Rows;
use crate::slot::Slot;
use dns_message::{Name, Record};
use std::alloc::{AllocError, Allocator, Global};
use std::marker::Model;
use suffix_routes::RouteId;

/// The content of a piece, small since most pieces are sets: an SOA is in a box.
#[derive(Drop)]
pub enum Body<A: Allocator = Global> {
    /// The data of a record set (RFC 2181 5), in the order of the reply, without duplicates.
    Rows(Rows<A>),
    /// NODATA: the name has no records of the type (RFC 2308 2.2); with the reply's SOA, if any.
    NoData(Option<Box<Record<A>, A>>),
    /// A name error: there is no such name (RFC 2308 2.1); with the reply's SOA, if any.
    Denied(Option<Box<Record<A>, A>>),
}

/// A record set or a denial, with a single lifetime. Contracts see its class and type as a slot,
/// with the owner's key.
#[derive(Drop)]
pub struct Piece<A: Allocator = Global> {
    /// In seconds, a week at most.
    pub lifetime: u32,
    /// 3, 2 or 1, from the most to the least trustworthy (RFC 2181 5.4.1).
    pub rank: u8,
    /// 1 is IN.
    pub class: u16,
    /// The type; `None` for a name error.
    pub kind: Option<u16>,
    /// The route of the answered ask.
    pub route: RouteId,
    /// The name, spelled as in the first record of a set.
    pub owner: Name<A>,
    /// The content: `Denied` exactly if there is no type.
    pub body: Body<A>,
}

impl<A: Allocator> Model for Piece<A> {
    ghost use Rattle.dns_message.specs.DnsName.Labels.{lowered};
    ghost use Rattle.trust_rank.specs.Values.{Piece, body_of};
    ghost use Rattle.trust_rank.specs.Formed.{IsPiece};

    ghost Value = { Piece };

    ghost view = { λ p. record {
      owner = p.owner;
      slot = record {
        class = p.class;
        kind = p.kind;
        key = lowered p.owner;
      };
      body = body_of p.body;
      lifetime = p.lifetime;
      rank = p.rank;
      route = p.route;
    } };

    ghost invariant = { λ p. IsPiece (record {
      owner = p.owner;
      slot = record { class = p.class; kind = p.kind; key = lowered p.owner };
      body = body_of p.body;
      lifetime = p.lifetime;
      rank = p.rank;
      route = p.route;
    }) };
}

impl<A: Allocator> Piece<A> {
    /// The slot of the piece. The clause `formed` repeats the facts about each piece.
    pub fn slot(&self) -> Slot
        ensures slot { result ≡ self.now.slot }
        ensures formed { IsPiece self.now }
    {
        Slot {
            class: self.class,
            kind: self.kind,
            key: self.owner.key(),
        }
    }
}

impl<A: Allocator + Copy> Piece<A> {
    /// An equal piece.
    pub fn copy(&self, alloc: A) -> Result<Piece<A>, AllocError>
        ensures { IfOk result (λ copy. copy ≡ self.now) }
    {
        Ok(Piece {
            lifetime: self.lifetime,
            rank: self.rank,
            class: self.class,
            kind: self.kind,
            route: self.route,
            owner: self.owner.copy(alloc)?,
            body: self.body.copy(alloc)?,
        })
    }
}

impl<A: Allocator + Copy> Body<A> {
    /// An equal body.
    pub fn copy(&self, alloc: A) -> Result<Body<A>, AllocError>
        ensures { IfOk result (λ copy. body_of copy ≡ body_of self.now) }
    {
        match self {
            Body::Rows(rows) => Ok(Body::Rows(rows.copy(alloc)?)),
            Body::NoData(soa) => Ok(Body::NoData(copy_of_soa(alloc, soa)?)),
            Body::Denied(soa) => Ok(Body::Denied(copy_of_soa(alloc, soa)?)),
        }
    }
}

/// A copy of the record, if any.
fn copy_of_soa<A: Allocator + Copy>(
    alloc: A,
    soa: &Option<Box<Record<A>, A>>,
) -> Result<Option<Box<Record<A>, A>>, AllocError>
    ensures { IfOk result (λ copy. unboxed copy ≡ unboxed soa.now) }
{
    match soa {
        None => Ok(None),
        Some(soa) => Ok(Some(boxed_copy(alloc, soa.as_ref())?)),
    }
}

/// A copy of an SOA, in a box.
pub(crate) fn boxed_copy<A: Allocator + Copy>(
    alloc: A,
    soa: &Record<A>,
) -> Result<Box<Record<A>, A>, AllocError>
    ensures { IfOk result (λ copy. copy.value ≡ soa.now) }
{
    Ok(Box::new(alloc, soa.copy(alloc)?)?)
}
