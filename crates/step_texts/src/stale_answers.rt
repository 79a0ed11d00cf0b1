//! Answers from stale sets (RFC 8767), and denials by the configuration.

ghost use Rattle.std.specs.Prelude.{◌≡◌, ◌++◌, IfOk, length};
ghost use Rattle.std.specs.List.{AllByRecursion};
ghost use Rattle.answer_builder.specs.Answers.{with_stale_ttls, IsEarlier};
ghost use Rattle.plain_values.specs.Borrowed.{lent};
ghost use Rattle.answer_builder.specs.Transports.{stale_answer_of};
ghost use Rattle.step_values.specs.Values.{action_of};
ghost use Rattle.step_values.specs.declared.action.Why.TheVariants.{Stale};
ghost use Rattle.step_table.specs.Steps.{denied_locally, sends, transport_of};

use crate::answers::chain_after;
use crate::texts::reply;
use answer_builder::{PieceWithTtl, Sections};
use record_cache::Held;
use std::alloc::{AllocError, Allocator};
use step_table::waiting::Request;
use step_values::{Action, Why};

/// The reply to a question without a try left: from its held aliases, then the found pieces, which
/// may be stale. None was accepted after the moment, in milliseconds. Expired pieces among the
/// found get a TTL of 30 seconds (RFC 8767 4).
pub fn stale_answer<A: Allocator + Copy>(
    alloc: A,
    request: &Request<'_>,
    aliases: &[Held<A>],
    found: &[&Held<A>],
    moment: u64,
) -> Result<Action<A>, AllocError>
    requires aliases { AllByRecursion (IsEarlier moment) aliases.now }
    requires found { AllByRecursion (IsEarlier moment) (lent found.now) }
    ensures { IfOk result (λ action. action_of action ≡ sends Stale request.now
        (stale_answer_of request.now.asked (aliases.now ++ lent found.now) (length aliases.now) moment
        (transport_of request.now.client))) }
{
    let chain = chain_after(alloc, aliases, found)?;
    let pieces = with_stale_ttls_of(alloc, &chain, aliases.len(), moment)?;
    let sections = Sections::stale(alloc, &pieces)?;
    reply(alloc, request, &sections, Why::Stale)
}

/// The reply to a question whose own name, or the name at the end of these aliases, the
/// configuration denies: a name error with the aliases alone (RFC 6761 6.4). None of the aliases
/// was accepted after the moment, in milliseconds.
pub fn local_answer<A: Allocator + Copy>(
    alloc: A,
    request: &Request<'_>,
    aliases: &[&Held<A>],
    moment: u64,
) -> Result<Action<A>, AllocError>
    requires { AllByRecursion (IsEarlier moment) (lent aliases.now) }
    ensures { IfOk result (λ action. action_of action ≡ denied_locally moment request.now (lent aliases.now)) }
{
    let pieces = with_stale_ttls_of(alloc, aliases, aliases.len(), moment)?;
    let sections = Sections::denied(alloc, &pieces)?;
    reply(alloc, request, &sections, Why::LocalDenied)
}

/// The pieces of a chain in an answer at a moment, in milliseconds: the first `stale_from` with
/// their seconds left, the rest as stale.
fn with_stale_ttls_of<'a, A: Allocator + Copy>(
    alloc: A,
    chain: &'a [&Held<A>],
    stale_from: usize,
    moment: u64,
) -> Result<Vec<PieceWithTtl<'a, A>, A>, AllocError>
    requires { AllByRecursion (IsEarlier moment) (lent chain.now) }
    ensures { IfOk result (λ pieces. pieces.items ≡ with_stale_ttls stale_from moment (lent chain.now)) }
{
    let mut pieces = Vec::with_capacity(alloc, chain.len())?;
    for (place, held) in chain.iter().enumerate() {
        let one = if place < stale_from {
            PieceWithTtl::at(held, moment)
        } else {
            PieceWithTtl::stale(held, moment)
        };
        pieces.push(one)?;
    }
    Ok(pieces)
}
