//! The name servers of the authority section: RFC 2181 5.4.1.

ghost use Rattle.std.specs.Prelude.{◌≡◌, ◌++◌, IfOk};
ghost use Rattle.std.specs.List.{list_any};
ghost use Rattle.trust_rank.specs.Walks.{is_server_for, has_owner, begins_set, servers_with, servers_from};
ghost use Rattle.dns_message.specs.Data.{IsShaped};
ghost use Rattle.dns_message.specs.Messages.{AreShaped};

use crate::denials::is_name_under;
use crate::piece::Piece;
use crate::reply::{Reply, is_name_server};
use crate::sets::{SetKey, Source, is_same_name, set_with};
use dns_message::{Name, PlainList, Record};
use std::alloc::{AllocError, Allocator};

/// The sets of the fitting NS records of the authority section whose owners have no piece yet, in
/// order.
pub(crate) fn servers_beside<'a, A: Allocator + Copy>(
    alloc: A,
    reply: &Reply<'a, A>,
    pieces: &[Piece<A>],
) -> Result<PlainList<Piece<A>, A>, AllocError>
    ensures { IfOk result (λ sets. sets ≡ servers_from reply.now pieces.now reply.now.authority) }
{
    let mut sets = PlainList::new(alloc);
    let mut rest = reply.authority;
    while let Some((first, others)) = rest.split_first() {
        if begins_set(reply, pieces, sets.as_slice(), first) {
            sets.push(servers_with(alloc, reply, first, others)?)?;
        }
        rest = others;
    }
    Ok(sets)
}

/// The NS record fits, and its owner has no piece yet. The owner is looked for first: of many
/// records of an owner the route of the first alone is looked up.
#[tactic(auto, using(crate::proofs::ServerLaws::begins_none, crate::proofs::ServerLaws::begins_one))]
fn begins_set<A: Allocator + Copy>(
    reply: &Reply<'_, A>,
    pieces: &[Piece<A>],
    sets: &[Piece<A>],
    record: &Record<A>,
) -> bool
    ensures { result ≡ begins_set reply.now (pieces.now ++ sets.now) record.now }
{
    if has_piece(pieces, sets, &record.owner) {
        return false;
    }
    is_server_for(reply, record)
}

/// A piece of either list has this owner.
#[tactic(auto, using(crate::proofs::ServerLaws::among_both))]
fn has_piece<A: Allocator>(pieces: &[Piece<A>], sets: &[Piece<A>], name: &Name<A>) -> bool
    ensures { result ≡ list_any (has_owner name.now) (pieces.now ++ sets.now) }
{
    is_among(pieces, name) || is_among(sets, name)
}

fn is_among<A: Allocator>(pieces: &[Piece<A>], name: &Name<A>) -> bool
    ensures { result ≡ list_any (has_owner name.now) pieces.now }
{
    pieces.iter().any(|piece| is_owner(piece, name))
}

fn is_owner<A: Allocator>(piece: &Piece<A>, name: &Name<A>) -> bool
    ensures { result ≡ has_owner name.now piece.now }
{
    is_same_name(&piece.owner, name)
}

/// An NS record of the question's class, whose owner is at or above the asked name and on the
/// route.
fn is_server_for<A: Allocator + Copy>(reply: &Reply<'_, A>, record: &Record<A>) -> bool
    ensures { result ≡ is_server_for reply.now record.now }
{
    is_name_server(record)
        && record.class == reply.class
        && is_name_under(reply.name, &record.owner)
        && reply.is_on_route(&record.owner)
}

/// The NS set that begins with this record.
fn servers_with<'a, A: Allocator + Copy>(
    alloc: A,
    reply: &Reply<'a, A>,
    first: &'a Record<A>,
    others: &'a [Record<A>],
) -> Result<Piece<A>, AllocError>
    requires shaped { IsShaped first.now.kind first.now.rdata }
    requires others_shaped { AreShaped others.now }
    ensures { IfOk result (λ p. p ≡ servers_with reply.now first.now others.now) }
{
    let source = Source {
        rank: 2,
        route: reply.route,
    };
    let key = SetKey {
        name: &first.owner,
        kind: first.kind,
        class: first.class,
    };
    set_with(alloc, source, first, others, &key)
}
