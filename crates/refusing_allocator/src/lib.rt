//! An allocator for tests. After a given number of allocations it refuses all further ones, or a
//! single one. It can also refuse large allocations.
#![tactic(auto)]

use std::alloc::{AllocError, Allocator};
use std::cell::Cell;

/// Ample memory: with this count no allocation is refused.
const AMPLE: u64 = u64::MAX;

/// A handle on the memory of `inner`, which a test can make run out.
///
/// A test sets its state up with ample memory, calls `allow` or `refuse_one` with 0, 1, 2, ..
/// before the tested step, and looks at the step's result with its first, second, third, ..
/// allocation refused: with all later allocations, or alone. Collections take the allocator by
/// reference, as `&Refusing<Global>`, so that the test keeps it.
///
/// An allocation is one call of `allocate`; a collection that moves its items to a larger block
/// makes one. Freeing is never refused, and gives no allocation back.
#[derive(Drop)]
pub struct Refusing<B: Allocator> {
    // The order of the two fields counts: the proofs below `proofs/RefusingAllocator` name their
    // places.
    inner: B,
    growths: Growths,
}

impl<B: Allocator> Refusing<B> {
    /// A handle on `inner` with ample memory.
    pub fn new(inner: B) -> Refusing<B> {
        Refusing {
            inner,
            growths: Growths {
                left: Cell::new(AMPLE),
                refill: Cell::new(0),
                most: Cell::new(usize::MAX),
            },
        }
    }

    /// From now on grants `count` more allocations, and refuses all later ones. At `u64::MAX` none
    /// is refused.
    pub fn allow(&self, count: u64) {
        self.growths.left.set(count);
        self.growths.refill.set(0);
    }

    /// From now on grants `count` more allocations, refuses the next, and grants all later ones. At
    /// `u64::MAX` none is refused.
    pub fn refuse_one(&self, count: u64) {
        self.growths.left.set(count);
        self.growths.refill.set(AMPLE);
    }

    /// From now on also refuses each allocation of more than this number of octets, without
    /// counting it. At `usize::MAX`, as at first, no allocation is refused for its size.
    pub fn refuse_above(&self, octets: usize) {
        self.growths.most.set(octets);
    }
}

unsafe impl<B: Allocator> Allocator for Refusing<B> {
    // A block is the inner allocator's own, and so is the right to free the block.
    ghost dealloc_token = { λ heap layout block. B.dealloc_token heap.inner layout block };

    fn allocate(&self, size: usize, align: usize) -> Result<*mut u8, AllocError> {
        if is_refused(&self.growths, size) {
            return Err(AllocError);
        }
        self.inner.allocate(size, align)
    }

    unsafe fn deallocate(&self, ptr: *mut u8, size: usize, align: usize) {
        self.inner.deallocate(ptr, size, align);
    }
}

/// The number of allocations granted before a refusal, the number granted after each refusal, and
/// the most octets of a granted allocation.
#[derive(Drop)]
struct Growths {
    left: Cell<u64>,
    refill: Cell<u64>,
    most: Cell<usize>,
}

/// Whether the next allocation, of this number of octets, is refused. Counts the allocation unless
/// too large.
fn is_refused(growths: &Growths, size: usize) -> bool {
    size > growths.most.get() || is_spent(growths)
}

/// Whether the next allocation is refused. Counts the allocation otherwise.
fn is_spent(growths: &Growths) -> bool {
    match growths.left.get() {
        0 => {
            growths.left.set(growths.refill.get());
            true
        }
        AMPLE => false,
        count => {
            growths.left.set(count - 1);
            false
        }
    }
}
