//! Look-ups of a question along aliases among stale entries, once no try is left: RFC 8767 5.

ghost use Rattle.std.specs.Prelude.{◌≡◌, ◌≤◌, IfOk, option_map};
ghost use Rattle.std.specs.List.{AllByRecursion};
ghost use Rattle.std.specs.Option.{IfSome};
ghost use Rattle.dns_name.specs.Labels.{labels_of, IsLaidOut};
ghost use Rattle.dns_message.specs.Questions.{asked_at};
ghost use Rattle.plain_values.specs.Borrowed.{lent};
ghost use Rattle.negative_cache.specs.RecordCache.Laws.{Among};
ghost use Rattle.negative_cache.specs.Stale.{stale};
ghost use Rattle.negative_cache.specs.Values.{found_of};
ghost use Rattle.alias_chains.specs.StaleLookUps.{look_up_stale};

use crate::looking::target_octets;
use dns_message::QuestionRef;
use negative_cache::{CacheAt, Found, Held, LookUpSlot};
use std::alloc::{AllocError, Allocator};
use std::hash::BuildHasher;

/// The entries that lead a question to a set: the aliases, at most `most`, and the set. Each is
/// alive or expired fewer than `window` seconds ago, at most 86,400 (RFC 8767 5). `None` if there
/// is no such set. No denial is used, and nothing is promoted. All found entries lie in the cache.
pub fn look_up_stale<'a, H: BuildHasher + Drop, A: Allocator + Copy>(
    alloc: A,
    at: &CacheAt<'a, H, A>,
    question: &QuestionRef<'_>,
    window: u64,
    most: usize,
) -> Result<Option<Vec<&'a Held<A>, A>>, AllocError>
    requires { window ≤ 86400 }
    ensures exact { IfOk result (λ found. option_map (λ f. lent f.items) found
        ≡ look_up_stale window at.now.moment at.now.cache.entries most question.now) }
    ensures from_cache { IfOk result
        (λ found. IfSome found (λ f. AllByRecursion (λ h. Among h at.now.cache.entries) (lent f.items))) }
{
    let mut slot = LookUpSlot::new();
    let mut found = Vec::new(alloc);
    let mut rest = question.name();
    loop {
        match stale_at(at, &mut slot, question, rest, window) {
            Found::Rows(held) => {
                found.push(held)?;
                return Ok(Some(found));
            }
            Found::Alias(held) => {
                if found.len() == most {
                    return Ok(None);
                }
                let Some(target) = target_octets(held) else {
                    return Ok(None);
                };
                found.push(held)?;
                rest = target;
            }
            Found::Local | Found::NoData(_) | Found::Denied(_) | Found::Miss => return Ok(None),
        }
    }
}

/// Looks a question up among living and stale entries, at the name of these octets in place of its
/// own.
fn stale_at<'a, H: BuildHasher + Drop, A: Allocator + Copy>(
    at: &CacheAt<'a, H, A>,
    slot: &mut LookUpSlot,
    question: &QuestionRef<'_>,
    name: &[u8],
    window: u64,
) -> Found<'a, A>
    requires laid { IsLaidOut name.now }
    requires window { window ≤ 86400 }
    ensures { found_of result
        ≡ stale window at.now.moment at.now.cache.entries (asked_at question.now (labels_of name.now)) }
{
    let wanted = QuestionRef::from_octets(name, question.kind(), question.class());
    at.find_stale(slot, &wanted, window)
}
