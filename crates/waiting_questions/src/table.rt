//! The waiting questions under keys, with indexes of the keys.

ghost use Rattle.std.specs.Prelude.{◌≡◌, ◌<◌, ◌≤◌, ◌∷◌, ◌++◌, [], true, not, filter, length, Option, Some, MatchOption};
ghost use Rattle.std.specs.Prelude.{OnOk, slice_get, slice_index};
ghost use Rattle.std.specs.List.{remove, remove_range, AllByRecursion};
ghost use Rattle.slab.specs.Slab.{ContainsKey, Updates};
ghost use Rattle.waiting_questions.specs.Values.{Waiting as Asking, waits_for};
ghost use Rattle.waiting_questions.specs.Onward.{redirected};
ghost use Rattle.waiting_questions.specs.Indexes.{has_room, items_of, keys_of, to_question, IsIndexed, IsRange};
ghost use Rattle.waiting_questions.specs.Settling.{left_by, settled, with_at};

use crate::keyed::KeyedWaiting;
use crate::places::{place_by_arrival, range_of};
use crate::waiting::Onward;
use arrival_order::ArrivalOrder;
use outstanding::{KeyedAsk, NumberedKey, QuestionKey};
use slab::Slab;
use std::alloc::{AllocError, Allocator};
use std::collections::VecDeque;

/// The waiting questions, each under a slab key, and two lists of the keys: by question, equal
/// questions in the order of arrival; and all in the order of arrival. The first list has the
/// numbers of the questions next to the keys, so that a search seldom reads a question.
#[derive(Drop)]
pub(crate) struct Table<A: Allocator> {
    pub(crate) waiting: Slab<KeyedWaiting<A>, A>,
    pub(crate) by_question: VecDeque<NumberedKey, A>,
    pub(crate) by_arrival: ArrivalOrder<A>,
}

impl<A: Allocator> Table<A> {
    /// An empty table.
    pub(crate) fn new(alloc: A) -> Table<A>
    where
        A: Copy,
        ensures indexed { IsIndexed result }
        ensures empty { items_of result ≡ [] }
    {
        Table {
            waiting: Slab::new(alloc),
            by_question: VecDeque::new(alloc),
            by_arrival: ArrivalOrder::new(alloc),
        }
    }

    /// The number of waiting questions.
    pub(crate) fn len(&self) -> usize
        requires { IsIndexed self.now }
        ensures { result ≡ length (items_of self.now) }
    {
        self.by_arrival.len()
    }

    /// The oldest question, with its key.
    pub(crate) fn first(&self) -> Option<&KeyedWaiting<A>>
        requires { IsIndexed self.now }
        ensures { MatchOption result (items_of self.now ≡ []) (λ keyed. slice_get (items_of self.now) 0
            ≡ Some keyed.now) }
    {
        let key = self.by_arrival.first()?;
        Some(&self.waiting[key])
    }

    /// The range, as start and end, of the questions that wait for `key`, in the order of
    /// questions.
    pub(crate) fn range(&self, question: &QuestionKey) -> (usize, usize)
        requires { IsIndexed self.now }
        ensures { IsRange (to_question question.now) self.now.waiting
            (keys_of self.now.by_question.items) result.0 result.1 }
    {
        range_of(&self.waiting, &self.by_question, question)
    }

    /// Makes room for one more question. A slab key longer than 32 bits counts as out of memory.
    pub(crate) fn reserve(&mut self) -> Result<(), AllocError>
        requires { IsIndexed self.old }
        ensures indexed { IsIndexed self.new }
        ensures list { items_of self.new ≡ items_of self.old }
        ensures room { OnOk result (has_room self.new ≡ true) }
    {
        self.waiting.reserve(1)?;
        let key = self.waiting.vacant_key();
        let Ok(_) = u32::try_from(key) else {
            return Err(AllocError);
        };
        self.by_question.reserve(1)?;
        self.by_arrival.reserve(key)
    }

    /// Puts the newest question last, if there is room.
    pub(crate) fn put(&mut self, waiting: KeyedWaiting<A>)
        requires indexed { IsIndexed self.old }
        requires room { has_room self.old ≡ true }
        requires later { AllByRecursion (λ x. x.taken ≤ waiting.taken) (items_of self.old) }
        ensures indexed { IsIndexed self.new }
        ensures list { items_of self.new ≡ items_of self.old ++ waiting ∷ [] }
    {
        let question = waiting.key();
        let number = question.number();
        let (_, end) = self.range(question);
        let key = self.waiting.insert_reserved(waiting);
        let item = NumberedKey::new(number, key);
        let Ok(()) = self.by_question.insert(end, item) else {
            unreachable!();
        };
        self.by_arrival.put(key);
    }

    /// Removes the question whose key is at this place in the order of questions, and at this rank.
    pub(crate) fn take(&mut self, place: usize, arrival_rank: usize)
        requires indexed { IsIndexed self.old }
        requires place { place < length self.old.by_question.items }
        requires arrival_rank { arrival_rank < length self.old.by_arrival.keys }
        requires one { slice_index (keys_of self.old.by_question.items) place
            ≡ slice_index self.old.by_arrival.keys arrival_rank }
        ensures indexed { IsIndexed self.new }
        ensures list { items_of self.new ≡ remove (items_of self.old) arrival_rank }
    {
        let Some(item) = self.by_question.remove(place) else {
            unreachable!();
        };
        self.by_arrival.take(arrival_rank);
        self.waiting.remove(item.key());
    }

    /// Gives their fates to the questions that wait for this ask's question, the newest first, so
    /// that the places of the older ones stay.
    pub(crate) fn settle(&mut self, ask: &KeyedAsk<A>, mut fates: Vec<Option<Onward<A>>, A>)
        requires indexed { IsIndexed self.old }
        requires one_each { length fates.items ≡ length (filter (waits_for ask.now.question) (items_of self.old)) }
        ensures indexed { IsIndexed self.new }
        ensures list { items_of self.new ≡ settled ask.now.question fates.items (items_of self.old) }
    {
        let question = ask.key();
        while let Some(fate) = fates.pop() {
            let (start, _) = self.range(question);
            let place = start + fates.len();
            let arrival_rank = self.by_arrival.place_of(self.by_question[place].key());
            self.settle_one(place, arrival_rank, fate);
        }
    }

    /// Removes the questions that wait for this ask's question, the newest first. Their keys leave
    /// the list by question together, at the end.
    pub(crate) fn end(&mut self, ask: &KeyedAsk<A>)
        requires { IsIndexed self.old }
        ensures indexed { IsIndexed self.new }
        ensures list { items_of self.new ≡ filter (λ x. not (waits_for ask.now.question x)) (items_of self.old) }
    {
        let (start, end) = self.range(ask.key());
        for place in (start..end).rev() {
            let key = self.by_question[place].key();
            let arrival_rank = self.by_arrival.place_of(key);
            self.by_arrival.take(arrival_rank);
            let_go(&mut self.waiting, key);
        }
        take_range(&mut self.by_question, start, end);
    }

    /// Removes all.
    pub(crate) fn clear(&mut self)
        ensures indexed { IsIndexed self.new }
        ensures list { items_of self.new ≡ [] }
    {
        self.waiting.clear();
        self.by_question.clear();
        self.by_arrival.clear();
    }

    /// Redirects or removes the question whose key is at this place in the order of questions, and
    /// at this arrival rank.
    fn settle_one(&mut self, place: usize, arrival_rank: usize, fate: Option<Onward<A>>)
        requires indexed { IsIndexed self.old }
        requires place { place < length self.old.by_question.items }
        requires arrival_rank { arrival_rank < length self.old.by_arrival.keys }
        requires one { slice_index (keys_of self.old.by_question.items) place
            ≡ slice_index self.old.by_arrival.keys arrival_rank }
        ensures indexed { IsIndexed self.new }
        ensures list { (x : Asking) → slice_get (items_of self.old) arrival_rank ≡ Some x
            → items_of self.new ≡ with_at (items_of self.old) arrival_rank (left_by fate x) }
    {
        match fate {
            None => self.take(place, arrival_rank),
            Some(onward) => self.send_on(place, arrival_rank, onward),
        }
    }

    /// Redirects the question whose key is at this place in the order of questions, and at this
    /// arrival rank, which stays.
    fn send_on(&mut self, place: usize, arrival_rank: usize, onward: Onward<A>)
        requires indexed { IsIndexed self.old }
        requires place { place < length self.old.by_question.items }
        requires arrival_rank { arrival_rank < length self.old.by_arrival.keys }
        requires one { slice_index (keys_of self.old.by_question.items) place
            ≡ slice_index self.old.by_arrival.keys arrival_rank }
        ensures indexed { IsIndexed self.new }
        ensures list { (x : Asking) → slice_get (items_of self.old) arrival_rank ≡ Some x
            → items_of self.new ≡ with_at (items_of self.old) arrival_rank (Some (redirected onward x)) }
    {
        let Some(old) = self.by_question.remove(place) else {
            unreachable!();
        };
        let mut keyed = self.waiting.remove(old.key());
        keyed.send_on(onward);
        let question = keyed.key();
        let number = question.number();
        let (start, end) = range_of(&self.waiting, &self.by_question, question);
        let at = place_by_arrival(
            &self.by_question,
            &self.by_arrival,
            start,
            end,
            arrival_rank,
        );
        self.waiting.insert_reserved(keyed);
        let item = NumberedKey::new(number, old.key());
        let Ok(()) = self.by_question.insert(at, item) else {
            unreachable!();
        };
    }
}

/// Removes the question under a key.
fn let_go<A: Allocator>(waiting: &mut Slab<KeyedWaiting<A>, A>, key: usize)
    requires { ContainsKey waiting.old key }
    ensures { Updates waiting.old waiting.new key None }
{
    waiting.remove(key);
}

/// Removes the keys from one place up to another. The keys on the shorter side move up: once for
/// one removed key, twice for more.
fn take_range<A: Allocator>(keys: &mut VecDeque<NumberedKey, A>, start: usize, end: usize)
    requires low { start ≤ end }
    requires high { end ≤ length keys.old.items }
    ensures { keys.new.items ≡ remove_range keys.old.items start end }
{
    match end - start {
        0 => {}
        1 => {
            let Some(_) = keys.remove(start) else {
                unreachable!();
            };
        }
        _ => drop(keys.drain(start..end)),
    }
}
