//! The places of keys, found by searches.

ghost use Rattle.std.specs.Prelude.{◌≡◌, ◌<◌, ◌≤◌, IfOk, IfErr};
ghost use Rattle.std.specs.VecDeque.{deque_len};
ghost use Rattle.outstanding.specs.Tables.{AreNumbered, compared_by_number, Covers, IsAt, IsGap, keys_of, Rises};
ghost use Rattle.outstanding.specs.Tables.{to_path, to_question};
ghost use Rattle.outstanding.specs.Orders.{key_cmp, path_cmp, path_number, question_key};

use crate::ask::Path;
use crate::keyed::{KeyedAsk, QuestionKey};
use crate::numbered::NumberedKey;
use slab::Slab;
use std::alloc::Allocator;
use std::cmp::Ordering;
use std::collections::VecDeque;

/// The place of a path's ask among keys in the order of the paths, or the place for a new ask.
pub(crate) fn place_on<A: Allocator>(
    asks: &Slab<KeyedAsk<A>, A>,
    keys: &VecDeque<NumberedKey, A>,
    path: Path,
) -> Result<usize, usize>
    requires covered { Covers asks.now (keys_of keys.now.items) }
    requires rises { Rises path_cmp (λ a. a.path) asks.now (keys_of keys.now.items) }
    requires numbered { AreNumbered (λ a. path_number a.path) asks.now keys.now.items }
    ensures within { IfOk result (λ place. place < deque_len keys.now) }
    ensures room { IfErr result (λ place. place ≤ deque_len keys.now) }
    ensures found { IfOk result (IsAt (to_path path) asks.now (keys_of keys.now.items)) }
    ensures absent { IfErr result (IsGap (to_path path) asks.now (keys_of keys.now.items)) }
{
    let number = path.number();
    keys.binary_search_by(|key| compare_path(asks, *key, number, path))
}

/// The order of the path of the ask under a key and `path`, whose number is given: different
/// numbers decide, and the ask is read only if they are equal. A key without an ask comes first
/// then.
#[inline]
fn compare_path<A: Allocator>(
    asks: &Slab<KeyedAsk<A>, A>,
    key: NumberedKey,
    number: u32,
    path: Path,
) -> Ordering
    ensures { result ≡ compared_by_number number (to_path path) asks.now key }
{
    if key.number != number {
        return key.number.cmp(&number);
    }
    match asks.get(key.key()) {
        Some(keyed) => keyed.cmp_path(path),
        None => Ordering::Less,
    }
}

/// The place of a question's ask among keys in the order of the questions, or the place for a new
/// ask.
pub(crate) fn place_of<A: Allocator>(
    asks: &Slab<KeyedAsk<A>, A>,
    keys: &VecDeque<NumberedKey, A>,
    question: &QuestionKey,
) -> Result<usize, usize>
    requires covered { Covers asks.now (keys_of keys.now.items) }
    requires rises { Rises key_cmp (λ a. question_key a.question) asks.now (keys_of keys.now.items) }
    requires numbered { AreNumbered (λ a. (question_key a.question).number) asks.now keys.now.items }
    ensures within { IfOk result (λ place. place < deque_len keys.now) }
    ensures room { IfErr result (λ place. place ≤ deque_len keys.now) }
    ensures found { IfOk result (IsAt (to_question question.now) asks.now (keys_of keys.now.items)) }
    ensures absent { IfErr result (IsGap (to_question question.now) asks.now (keys_of keys.now.items)) }
{
    let number = question.number();
    keys.binary_search_by(|key| compare_question(asks, *key, number, question))
}

/// The order of the question of the ask under a key and this question, whose number is given:
/// different numbers decide, and the ask is read only if they are equal. A key without an ask comes
/// first then.
#[inline]
fn compare_question<A: Allocator>(
    asks: &Slab<KeyedAsk<A>, A>,
    key: NumberedKey,
    number: u32,
    question: &QuestionKey,
) -> Ordering
    ensures { result ≡ compared_by_number number (to_question question.now) asks.now key }
{
    if key.number != number {
        return key.number.cmp(&number);
    }
    match asks.get(key.key()) {
        Some(keyed) => keyed.cmp_question(question),
        None => Ordering::Less,
    }
}
