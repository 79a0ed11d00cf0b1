//! The cache as a plain list.

use record_cache::Offered;
use std::alloc::{AllocError, Global};
use trust_rank::Slot;

/// The compared fields of an entry.
#[derive(Clone, Copy, Debug, PartialEq, Eq)]
pub(crate) struct Entry {
    pub rank: u8,
    pub lifetime: u32,
    pub accepted: u64,
}

/// Entries under their slots, the most recently used first.
#[derive(Drop)]
pub(crate) struct PlainCache {
    pub capacity: usize,
    pub entries: Vec<(Slot, Entry)>,
}

impl PlainCache {
    pub(crate) fn new(alloc: Global, capacity: usize) -> PlainCache {
        PlainCache {
            capacity,
            entries: Vec::new(alloc),
        }
    }

    pub(crate) fn peek(&self, slot: &Slot) -> Option<Entry> {
        for (held, entry) in &self.entries {
            if held == slot {
                return Some(*entry);
            }
        }
        None
    }

    pub(crate) fn forget(&mut self, slot: &Slot) {
        let wanted = *slot;
        self.entries.retain(|pair| pair.0 != wanted);
    }

    pub(crate) fn promote(&mut self, slot: &Slot) -> Result<(), AllocError> {
        if let Some(entry) = self.peek(slot) {
            self.forget(slot);
            self.entries.insert(0, (*slot, entry))?;
        }
        Ok(())
    }

    pub(crate) fn offer(&mut self, slot: &Slot, offered: Entry) -> Result<Offered, AllocError> {
        if let Some(entry) = self.peek(slot)
            && slot.kind.is_some()
            && entry.rank > offered.rank
            && offered.accepted
                < entry
                    .accepted
                    .saturating_add(1000 * u64::from(entry.lifetime))
        {
            return Ok(Offered::Outranked);
        }
        self.forget(slot);
        if offered.lifetime == 0 {
            return Ok(Offered::NotKept);
        }
        self.entries.insert(0, (*slot, offered))?;
        self.entries.truncate(self.capacity);
        Ok(Offered::Kept)
    }

    /// Whether any name error is held.
    pub(crate) fn has_name_error(&self) -> bool {
        self.entries.iter().any(|pair| pair.0.kind.is_none())
    }
}
