//! Random numbers from a seed.

ghost use Rattle.std.specs.Prelude.{◌<◌, length};

use rand_core::utils::NextWord;
use rand_pcg::Pcg32;

/// A source of numbers: from equal seeds, equal numbers.
#[derive(Drop)]
pub(crate) struct Draws {
    words: Pcg32,
}

impl Draws {
    pub(crate) fn new(seed: u64) -> Draws {
        Draws {
            words: Pcg32::new(seed, 1),
        }
    }

    /// A number below the limit.
    pub(crate) fn below(&mut self, limit: u32) -> u32
        requires { 0 < limit }
        ensures { result < limit }
    {
        self.words.next_word() % limit
    }

    /// Any 16 bits.
    pub(crate) fn bits(&mut self) -> u16 {
        (self.words.next_word() % 65_536) as u16
    }

    /// True once in `many` draws.
    pub(crate) fn one_in(&mut self, many: u32) -> bool
        requires { 0 < many }
    {
        self.below(many) == 0
    }

    /// A value of these.
    pub(crate) fn pick<T: Copy>(&mut self, values: &[T]) -> T
        requires { 0 < length values.now }
    {
        values[self.words.next_word() as usize % values.len()]
    }

    /// A place in a list of this length; `None` for an empty list.
    pub(crate) fn place(&mut self, length: usize) -> Option<usize> {
        if length == 0 {
            return None;
        }
        Some(self.words.next_word() as usize % length)
    }
}
