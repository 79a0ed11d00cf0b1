//! The walk of a reply, from the asked name along its aliases: RFC 1034 3.6.2 and 5.3.3.

ghost use Rattle.std.specs.Prelude.{◌≡◌, true, [], ◌∷◌, ◌++◌, IfOk};
ghost use Rattle.dns_message.specs.Messages.{HasShapes};
ghost use Rattle.trust_rank.specs.Walks.{most_aliases, ending, is_lame, walk_from, carries_servers, with_servers};
ghost use Rattle.trust_rank.specs.Walks.{walk_of};
ghost use Rattle.trust_rank.specs.Values.{end_of};

use crate::piece::Piece;
use crate::reply::{AtName, Reply};
use crate::servers::servers_beside;
use crate::walk::{End, Walk};
use dns_message::{Message, PlainList, Question};
use std::alloc::{AllocError, Allocator};
use suffix_routes::{Config, RouteId};

/// No walk takes more aliases.
pub const MOST_ALIASES: usize = 8;

/// Returns the pieces of a reply to the question on the route, and the end of the walk from the
/// asked name.
///
/// At each name, the first of these: the name is not on the route, so the name has to be asked for;
/// the answer section has the asked set; an alias (RFC 1034 3.6.2), at most eight in all; the
/// response code denies the name (RFC 2308 2.1); after an alias, without a fitting SOA in the
/// authority section, the name has to be asked for; before any alias, without a fitting SOA, a
/// referral is lame; otherwise the type is denied (RFC 2308 2.2). Two aliases at a name are lame
/// (RFC 2181 10.1). An authoritative reply carries the NS sets of its authority section too: of the
/// question's class, on the route, for owners at or above the asked name without a piece.
///
/// The time is in proportion to n log n for n records, since the data of a large set is found by an
/// index; no contract says so.
pub fn pieces<A: Allocator + Copy>(
    alloc: A,
    message: &Message<A>,
    question: &Question<A>,
    route: RouteId,
    config: &Config<A>,
) -> Result<Walk<A>, AllocError>
    requires { HasShapes message.now }
    ensures { IfOk result (λ walk. walk ≡ walk_of config.now message.now question.now route) }
{
    let reply = Reply {
        config,
        route,
        name: &question.name,
        kind: question.kind,
        class: question.class,
        is_authoritative: message.header.aa,
        rcode: message.header.rcode,
        answers: message.answers.as_slice(),
        authority: message.authority.as_slice(),
    };
    let walk = walk_from(alloc, &reply)?;
    with_servers(alloc, &reply, walk)
}

/// The walk from the asked name along the aliases of the answer section.
fn walk_from<A: Allocator + Copy>(alloc: A, reply: &Reply<'_, A>) -> Result<Walk<A>, AllocError>
    ensures { IfOk result (λ w. w ≡ walk_from reply.now most_aliases true reply.now.question.name) }
{
    let mut pieces = PlainList::new(alloc);
    let mut name = reply.name.copy(alloc)?;
    let mut is_first = true;
    for _ in 0..MOST_ALIASES {
        match reply.met_at(alloc, is_first, &name)? {
            AtName::Nothing => return Ok(ending(alloc, pieces, End::Elsewhere(name))),
            AtName::Set(set) => return ending_with(alloc, pieces, set, End::Found),
            AtName::NoData(denial) => return ending_with(alloc, pieces, denial, End::NoData),
            AtName::NameError(denial) => return ending_with(alloc, pieces, denial, End::Denied),
            AtName::Lame => return Ok(ending(alloc, PlainList::new(alloc), End::Lame)),
            AtName::Alias(alias, target) => {
                pieces.push(alias)?;
                name = target;
                is_first = false;
            }
        }
    }
    Ok(ending(alloc, pieces, End::Elsewhere(name)))
}

/// These pieces and a last piece.
fn ending_with<A: Allocator + Copy>(
    alloc: A,
    mut pieces: PlainList<Piece<A>, A>,
    last: Piece<A>,
    end: End<A>,
) -> Result<Walk<A>, AllocError>
    ensures { IfOk result (λ w. w ≡ ending (pieces ++ last ∷ []) (end_of end)) }
{
    pieces.push(last)?;
    Ok(ending(alloc, pieces, end))
}

/// These pieces, and no name servers.
fn ending<A: Allocator + Copy>(alloc: A, pieces: PlainList<Piece<A>, A>, end: End<A>) -> Walk<A>
    ensures { result ≡ ending pieces (end_of end) }
{
    Walk {
        pieces,
        authority: PlainList::new(alloc),
        end,
    }
}

/// The walk, with the name servers of the authority section.
fn with_servers<A: Allocator + Copy>(
    alloc: A,
    reply: &Reply<'_, A>,
    walk: Walk<A>,
) -> Result<Walk<A>, AllocError>
    ensures { IfOk result (λ w. w ≡ with_servers reply.now walk) }
{
    if !carries_servers(reply, &walk.end) {
        return Ok(walk);
    }
    let authority = servers_beside(alloc, reply, walk.pieces.as_slice())?;
    let Walk { pieces, end, .. } = walk;
    Ok(Walk {
        pieces,
        authority,
        end,
    })
}

/// The reply is authoritative, and its walk not lame.
fn carries_servers<A: Allocator>(reply: &Reply<'_, A>, end: &End<A>) -> bool
    ensures { result ≡ carries_servers reply.now (end_of end.now) }
{
    reply.is_authoritative && !is_lame(end)
}

fn is_lame<A: Allocator>(end: &End<A>) -> bool
    ensures { result ≡ is_lame (end_of end.now) }
{
    matches!(end, End::Lame)
}
