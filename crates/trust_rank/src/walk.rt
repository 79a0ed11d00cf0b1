//! The walk of a reply to a question: its pieces, and its end.

use crate::piece::Piece;
use dns_message::{Name, PlainList};
use std::alloc::{Allocator, Global};
use std::marker::Model;

/// How the walk of a reply ends.
#[derive(Drop)]
pub enum End<A: Allocator = Global> {
    /// With the asked set.
    Found,
    /// With NODATA: the last name has no records of the type (RFC 2308 2.2).
    NoData,
    /// With a name error: the last name is not there (RFC 2308 2.1).
    Denied,
    /// At this name, which has to be asked for.
    Elsewhere(Name<A>),
    /// The reply neither answers nor denies, or contradicts itself, and carries nothing.
    Lame,
}

/// The pieces of a reply to a question, and the end of its walk from the asked name.
#[derive(Drop)]
pub struct Walk<A: Allocator = Global> {
    /// The aliases in order, at most eight, and the piece at the end of the walk, if any.
    pub pieces: PlainList<Piece<A>, A>,
    /// The name servers of the authority section of an authoritative reply: NS sets of owners
    /// without a piece, in the order of the section.
    pub authority: PlainList<Piece<A>, A>,
    /// How the walk ends.
    pub end: End<A>,
}

impl<A: Allocator> Model for Walk<A> {
    ghost use Rattle.trust_rank.specs.Values.{Walk, end_of};

    ghost Value = { Walk };

    ghost view = { λ w. record { pieces = w.pieces; authority = w.authority; end = end_of w.end } };
}
