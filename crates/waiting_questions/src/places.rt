//! The places of keys, found by searches.

ghost use Rattle.std.specs.Prelude.{◌≡◌, ◌≢◌, ℕ, ◌+◌, ◌≤◌, Bool, filter, length};
ghost use Rattle.std.specs.List.{between, All, AllPairs, Contains};
ghost use Rattle.waiting_questions.specs.Indexes.{compared_item, keys_of, to_question, AreKeys, AreNumbered, BeginsAt};
ghost use Rattle.waiting_questions.specs.Indexes.{IsByQuestion, IsRange};
ghost use Rattle.waiting_questions.specs.Settling.{earlier};

use crate::keyed::KeyedWaiting;
use arrival_order::ArrivalOrder;
use outstanding::{NumberedKey, QuestionKey};
use slab::Slab;
use std::alloc::Allocator;
use std::cmp::Ordering;
use std::collections::VecDeque;

/// The number of keys compared one by one: few clients wait for most questions.
const FEW: usize = 4;

/// The range, as start and end, of the questions that wait for `key`, among keys in the order of
/// their questions.
pub(crate) fn range_of<A: Allocator>(
    waiting: &Slab<KeyedWaiting<A>, A>,
    keys: &VecDeque<NumberedKey, A>,
    question: &QuestionKey,
) -> (usize, usize)
    requires keys { AreKeys IsByQuestion waiting.now (keys_of keys.now.items) }
    requires numbers { AreNumbered waiting.now keys.now.items }
    ensures { IsRange (to_question question.now) waiting.now (keys_of keys.now.items) result.0 result.1 }
{
    let start = keys.partition_point(|item| compare(waiting, *item, question).is_lt());
    (start, end_from(waiting, keys, question, start))
}

/// The place of the question with this arrival rank in a range in order of arrival: after all
/// earlier questions. A binary search.
pub(crate) fn place_by_arrival<A: Allocator>(
    keys: &VecDeque<NumberedKey, A>,
    by_arrival: &ArrivalOrder<A>,
    start: usize,
    end: usize,
    arrival_rank: usize,
) -> usize
    requires low { start ≤ end }
    requires high { end ≤ length keys.now.items }
    requires listed { All (Contains by_arrival.now.keys) (between start end (keys_of keys.now.items)) }
    requires apart { AllPairs (λ j k. j ≢ k) by_arrival.now.keys }
    ensures { (p : ℕ → Bool) → filter p by_arrival.now.keys ≡ between start end (keys_of keys.now.items)
        → result ≡ start + earlier p by_arrival.now.keys arrival_rank }
{
    let mut low = start;
    let mut high = end;
    while low < high {
        let middle = low + (high - low) / 2;
        if by_arrival.place_of(keys[middle].key()) < arrival_rank {
            low = middle + 1;
        } else {
            high = middle;
        }
    }
    low
}

/// The end of the range that begins at this place.
fn end_from<A: Allocator>(
    waiting: &Slab<KeyedWaiting<A>, A>,
    keys: &VecDeque<NumberedKey, A>,
    question: &QuestionKey,
    start: usize,
) -> usize
    requires keys { AreKeys IsByQuestion waiting.now (keys_of keys.now.items) }
    requires numbers { AreNumbered waiting.now keys.now.items }
    requires start { BeginsAt (to_question question.now) waiting.now (keys_of keys.now.items) start }
    ensures { IsRange (to_question question.now) waiting.now (keys_of keys.now.items) start result }
{
    let near = keys.len().min(start.saturating_add(FEW));
    for place in start..near {
        if compare(waiting, keys[place], question).is_gt() {
            return place;
        }
    }
    keys.partition_point(|item| compare(waiting, *item, question).is_le())
}

/// The order of `key` and the question under a slab key. Different numbers decide alone: the
/// questions are far away in memory, and are read only if numbers are equal. A slab key without a
/// question comes first.
#[inline]
fn compare<A: Allocator>(
    waiting: &Slab<KeyedWaiting<A>, A>,
    item: NumberedKey,
    question: &QuestionKey,
) -> Ordering
    ensures { result ≡ compared_item question.now waiting.now item }
{
    let number = question.number();
    if item.number != number {
        return item.number.cmp(&number);
    }
    match waiting.get(item.key()) {
        Some(keyed) => keyed.cmp_question(question),
        None => Ordering::Less,
    }
}
