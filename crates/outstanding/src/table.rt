//! The asks under keys, with indexes of the keys.

ghost use Rattle.std.specs.Prelude.{◌≡◌, ◌<◌, ◌≤◌, ◌+◌, ◌∷◌, ◌++◌, [], length, Some, None, OnOk, OnSome, MatchOption};
ghost use Rattle.std.specs.Prelude.{slice_get};
ghost use Rattle.std.specs.VecDeque.{deque_len, deque_capacity};
ghost use Rattle.std.specs.List.{insert, remove};
ghost use Rattle.outstanding.specs.Lists.{of_question, on_path, without_path};
ghost use Rattle.outstanding.specs.Orders.{question_key};
ghost use Rattle.outstanding.specs.Tables.{asks_of, HasRoom, IsIndexed};
ghost use Rattle.dns_message.specs.Values.{Question};

use crate::ask::{Ask, Path};
use crate::keyed::{KeyedAsk, QuestionKey};
use crate::numbered::NumberedKey;
use crate::places::{place_of, place_on};
use arrival_order::ArrivalOrder;
use slab::Slab;
use std::alloc::{AllocError, Allocator};
use std::collections::VecDeque;

/// The asks, each under a slab key, and the keys in the order of the paths, of the questions, and
/// of asking. The first two lists have the number of the path or of the question next to each key,
/// so that a search mostly stays in its list; at an insertion or removal the keys on the shorter
/// side move.
#[derive(Drop)]
pub(crate) struct Table<A: Allocator> {
    asks: Slab<KeyedAsk<A>, A>,
    by_path: VecDeque<NumberedKey, A>,
    by_question: VecDeque<NumberedKey, A>,
    by_arrival: ArrivalOrder<A>,
}

impl<A: Allocator> Table<A> {
    /// No asks.
    pub(crate) fn new(alloc: A) -> Table<A>
    where
        A: Copy,
        ensures indexed { IsIndexed result }
        ensures empty { asks_of result ≡ [] }
    {
        Table {
            asks: Slab::new(alloc),
            by_path: VecDeque::new(alloc),
            by_question: VecDeque::new(alloc),
            by_arrival: ArrivalOrder::new(alloc),
        }
    }

    /// The number of asks.
    pub(crate) fn len(&self) -> usize
        requires { IsIndexed self.now }
        ensures { result ≡ length (asks_of self.now) }
    {
        self.by_arrival.len()
    }

    /// The oldest ask.
    pub(crate) fn oldest(&self) -> Option<&KeyedAsk<A>>
        requires { IsIndexed self.now }
        ensures { MatchOption result (asks_of self.now ≡ []) (λ ask. slice_get (asks_of self.now) 0 ≡ Some ask.now) }
    {
        let key = self.by_arrival.first()?;
        Some(&self.asks[key])
    }

    /// The ask on a path.
    pub(crate) fn on_path(&self, path: Path) -> Option<&KeyedAsk<A>>
        requires { IsIndexed self.now }
        ensures { MatchOption result (on_path path (asks_of self.now) ≡ None) (λ ask. on_path path (asks_of self.now)
            ≡ Some ask.now) }
    {
        match place_on(&self.asks, &self.by_path, path) {
            Ok(place) => Some(&self.asks[self.by_path[place].key()]),
            Err(_) => None,
        }
    }

    /// The ask with a question of this key.
    pub(crate) fn of_question(&self, key: &QuestionKey) -> Option<&Ask<A>>
        requires { IsIndexed self.now }
        ensures { (question : Question) → key.now ≡ question_key question
            → MatchOption result (of_question question (asks_of self.now) ≡ None)
            (λ ask. of_question question (asks_of self.now) ≡ Some ask.now) }
    {
        match place_of(&self.asks, &self.by_question, key) {
            Ok(place) => Some(self.asks[self.by_question[place].key()].ask()),
            Err(_) => None,
        }
    }

    /// Makes room for one more ask. A slab key longer than 32 bits counts as out of memory.
    pub(crate) fn reserve(&mut self) -> Result<(), AllocError>
        requires { IsIndexed self.old }
        ensures indexed { IsIndexed self.new }
        ensures list { asks_of self.new ≡ asks_of self.old }
        ensures room { OnOk result (HasRoom self.new) }
    {
        self.asks.reserve(1)?;
        self.by_path.reserve(1)?;
        self.by_question.reserve(1)?;
        let key = self.asks.vacant_key();
        if key > u32::MAX as usize {
            return Err(AllocError);
        }
        self.by_arrival.reserve(key)
    }

    /// Puts an ask with a new path and a new question last, if there is room.
    pub(crate) fn put(&mut self, ask: KeyedAsk<A>)
        requires indexed { IsIndexed self.old }
        requires room { HasRoom self.old }
        requires path { on_path ask.path (asks_of self.old) ≡ None }
        requires question { of_question ask.question (asks_of self.old) ≡ None }
        ensures indexed { IsIndexed self.new }
        ensures list { asks_of self.new ≡ asks_of self.old ++ ask ∷ [] }
    {
        let Err(path) = place_on(&self.asks, &self.by_path, ask.ask().path) else {
            unreachable!();
        };
        let Err(question) = place_of(&self.asks, &self.by_question, ask.key()) else {
            unreachable!();
        };
        let path_number = ask.ask().path.number();
        let question_number = ask.key().number();
        let key = self.asks.insert_reserved(ask);
        put_key(&mut self.by_path, path, NumberedKey::new(path_number, key));
        put_key(
            &mut self.by_question,
            question,
            NumberedKey::new(question_number, key),
        );
        self.by_arrival.put(key);
    }

    /// Removes the ask on a path, which leaves room for a new one.
    pub(crate) fn take(&mut self, path: Path) -> Option<KeyedAsk<A>>
        requires { IsIndexed self.old }
        ensures indexed { IsIndexed self.new }
        ensures ended { result ≡ on_path path (asks_of self.old) }
        ensures list { asks_of self.new ≡ without_path path (asks_of self.old) }
        ensures len { OnSome result (length (asks_of self.new) + 1 ≡ length (asks_of self.old)) }
        ensures room { OnSome result (HasRoom self.new) }
    {
        let Ok(place) = place_on(&self.asks, &self.by_path, path) else {
            return None;
        };
        let key = self.by_path[place].key();
        let Ok(question) = place_of(&self.asks, &self.by_question, self.asks[key].key()) else {
            unreachable!();
        };
        let arrival_rank = self.by_arrival.place_of(key);
        take_key(&mut self.by_path, place);
        take_key(&mut self.by_question, question);
        self.by_arrival.take(arrival_rank);
        Some(self.asks.remove(key))
    }

    /// Removes all asks.
    pub(crate) fn clear(&mut self)
        ensures indexed { IsIndexed self.new }
        ensures list { asks_of self.new ≡ [] }
    {
        self.asks.clear();
        self.by_path.clear();
        self.by_question.clear();
        self.by_arrival.clear();
    }
}

/// Puts a key at a place, if there is room.
fn put_key<A: Allocator>(keys: &mut VecDeque<NumberedKey, A>, place: usize, key: NumberedKey)
    requires place { place ≤ deque_len keys.old }
    requires room { deque_len keys.old < deque_capacity keys.old }
    ensures { keys.new.items ≡ insert keys.old.items place key }
{
    let Ok(()) = keys.insert(place, key) else {
        unreachable!();
    };
}

/// Removes the key at a place, which leaves room for a new one.
fn take_key<A: Allocator>(keys: &mut VecDeque<NumberedKey, A>, place: usize)
    requires { place < deque_len keys.old }
    ensures items { keys.new.items ≡ remove keys.old.items place }
    ensures room { deque_len keys.new < deque_capacity keys.new }
{
    let Some(_) = keys.remove(place) else {
        unreachable!();
    };
}
