//! Look-ups of a question along aliases: RFC 1034 3.6.2.

ghost use Rattle.std.specs.Prelude.{◌≡◌, ◌-◌, ◌≤◌, [], length, IfOk, OnErr, MatchOption, None, Some};
ghost use Rattle.plain_values.specs.Borrowed.{lent};
ghost use Rattle.negative_cache.specs.Finding.{found};
ghost use Rattle.negative_cache.specs.Values.{alias};
ghost use Rattle.dns_name.specs.Labels.{labels_of, IsLaidOut};
ghost use Rattle.dns_message.specs.Data.{name_of_rdata};
ghost use Rattle.trust_rank.specs.Walks.{target_of, most_aliases};
ghost use Rattle.alias_chains.specs.LookingUp.{goes_on, too_many};
ghost use Rattle.alias_chains.specs.Looked.{look_up_from, with_used, IsAlias};

use crate::chain::Chain;
use crate::looked::{LookUp, LookUpEnd};
use crate::slots::Slots;
use crate::trail::Trail;
use dns_message::{Bound, QuestionRef, skip_name};
use negative_cache::{CacheAt, Found, Held, LookUpSlot};
use std::alloc::{AllocError, Allocator};
use std::hash::BuildHasher;
use trust_rank::{Body, MOST_ALIASES};

/// Looks a question up along aliases (RFC 1034 3.6.2): at its name, then at the target of the found
/// alias, and so on. `held` are the aliases that the question holds already; with them the look-up
/// takes at most eight. It ends with a set or a denial, with a ninth alias, or at a name without a
/// living entry. Only aliases allocate. The slot may be any: if the first entry ends the look-up,
/// the slot becomes the entry's, and the result borrows it.
pub fn look_up<'a, 's, H: BuildHasher + Drop, A: Allocator + Copy>(
    alloc: A,
    at: &CacheAt<'a, H, A>,
    slot: &'s mut LookUpSlot,
    held: Vec<&'a Held<A>, A>,
    question: &QuestionRef<'a>,
) -> Result<LookUp<'a, 's, A>, AllocError>
    ensures exact { IfOk result (λ looked. looked
        ≡ goes_on at.now.config.routes at.now.moment at.now.cache.entries (lent held.entry.items) question.now) }
    ensures no_alias { lent held.entry.items ≡ [] → OnErr result
        (IsAlias (found at.now.config.routes at.now.moment at.now.cache.entries question.now)) }
{
    if held.len() > MOST_ALIASES {
        return Ok(too_long(alloc, held, question));
    }
    match at.find(slot, question) {
        Found::Rows(end) | Found::NoData(end) | Found::Denied(end) => Ok(LookUp {
            chain: Chain::ended(held, end)?,
            wanted: question.reborrow(),
            met: LookUpEnd::Ends,
            used: Slots::one(alloc, slot),
        }),
        Found::Alias(alias) => follow(Trail::new(alloc, held, question), at, slot, alias),
        Found::Local | Found::Miss => Ok(LookUp {
            chain: Chain::More(held),
            wanted: question.reborrow(),
            met: LookUpEnd::Missed,
            used: Slots::none(alloc),
        }),
    }
}

/// The look-up of a question that holds more than eight aliases.
fn too_long<'a, 's, A: Allocator>(
    alloc: A,
    held: Vec<&'a Held<A>, A>,
    question: &QuestionRef<'a>,
) -> LookUp<'a, 's, A>
    ensures { result ≡ too_many (lent held.entry.items) question.now }
{
    let mut aliases = held;
    aliases.truncate(MOST_ALIASES + 1);
    LookUp {
        chain: Chain::More(aliases),
        wanted: question.reborrow(),
        met: LookUpEnd::TooLong,
        used: Slots::none(alloc),
    }
}

/// The look-up of a trail from its first alias on.
fn follow<'a, 's, H: BuildHasher + Drop, A: Allocator + Copy>(
    trail: Trail<'a, A>,
    at: &CacheAt<'a, H, A>,
    slot: &mut LookUpSlot,
    first: &'a Held<A>,
) -> Result<LookUp<'a, 's, A>, AllocError>
    requires { length (lent trail.held.items) ≤ most_aliases }
    ensures { IfOk result (λ looked. looked ≡ with_used trail.entry.used.items (look_up_from
        at.now.config.routes at.now.moment at.now.cache.entries
        (most_aliases - length (lent trail.entry.held.items)) (lent trail.entry.held.items) trail.entry.wanted
        (alias first.now))) }
{
    let mut trail = trail;
    let mut alias = first;
    loop {
        let Some(target) = target_octets(alias) else {
            return Ok(trail.stopped(LookUpEnd::Missed));
        };
        trail.take(alias, target)?;
        if trail.held.len() > MOST_ALIASES {
            return Ok(trail.stopped(LookUpEnd::TooLong));
        }
        match at.find(slot, &trail.wanted) {
            Found::Rows(end) | Found::NoData(end) | Found::Denied(end) => return trail.ended(end),
            Found::Alias(next) => alias = next,
            Found::Local | Found::Miss => return Ok(trail.stopped(LookUpEnd::Missed)),
        }
    }
}

/// The target of a cached CNAME, in wire form without the final zero octet.
#[tactic(auto, using(trust_rank::proofs::CallerLemmas::no_target))]
pub(crate) fn target_octets<A: Allocator>(alias: &Held<A>) -> Option<&[u8]>
    ensures { MatchOption result (target_of alias.now.piece.body ≡ None)
        (λ octets. IsLaidOut octets.now × (target_of alias.now.piece.body ≡ Some (labels_of octets.now))) }
{
    let Body::Rows(rows) = &alias.piece.body else {
        return None;
    };
    match rows.only() {
        Some(row) => name_in_data(row.octets()),
        None => None,
    }
}

/// The name that all of these octets are, written out with the zero octet at its end: its octets
/// without that one.
#[tactic(auto, using(dns_message::proofs::CallerLemmas::name_to_the_end, dns_message::proofs::CallerLemmas::no_name_to_the_end))]
fn name_in_data(octets: &[u8]) -> Option<&[u8]>
    ensures { MatchOption result (name_of_rdata octets.now ≡ None)
        (λ name. IsLaidOut name.now × (name_of_rdata octets.now ≡ Some (labels_of name.now))) }
{
    match skip_name(octets, &mut [], Bound::whole(octets), 0) {
        Ok(end) if end == octets.len() => Some(&octets[..end - 1]),
        _ => None,
    }
}
