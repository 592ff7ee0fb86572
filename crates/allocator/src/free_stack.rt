// An allocator that hands out the number freed most recently, in constant time.
ghost use Rattle.std.specs.Prelude.{◌≡◌, min, false, [], length, replicate};
ghost use Rattle.allocator.specs.Allocations.{capacity_limit, Allocates, Frees};
ghost use Rattle.allocator.specs.Stacks.{Waits, newest, most_recent, rest_of, mark_after, joined_by};

use crate::allocator::CellAllocator;
use crate::bitmap::Bitmap;
use crate::limits::{CAPACITY_LIMIT, CellCount, CellIndex};
use arrayvec::ArrayVec;

const STACK: usize = CAPACITY_LIMIT as usize;

/// A stack of the numbers that were freed, over a bitmap of those that are allocated.
#[derive(Drop)]
pub struct FreeStack {
    bitmap: Bitmap,
    // the numbers that were freed and wait, the newest last
    waiting: ArrayVec<CellIndex, STACK>,
    // the smallest number that was never allocated
    mark: CellCount,
    ghost waits: { Waits bitmap waiting.items mark },
}

impl FreeStack {
    /// An allocator of so many numbers, at most 4,096, of which none is allocated.
    pub fn new(size: CellCount) -> FreeStack
        ensures empty { result.bitmap ≡ replicate (min size capacity_limit) false }
        ensures none_waits { newest result.waiting.items ≡ [] }
        ensures start { result.mark ≡ 0 }
    {
        FreeStack {
            bitmap: Bitmap::new(size),
            waiting: ArrayVec::new(),
            mark: 0,
        }
    }
}

impl CellAllocator for FreeStack {
    ghost allocated = { λ a. a.bitmap };

    ghost bounded = { λ a. a.waits.within };

    fn allocate(&mut self) -> Option<CellIndex>
        ensures allocates { Allocates self.old.bitmap result self.new.bitmap }
        ensures rest { newest self.new.waiting.items ≡ rest_of (newest self.old.waiting.items) }
        ensures mark { self.new.mark ≡ mark_after (newest self.old.waiting.items) self.old.mark (length self.old.bitmap) }
        ensures picks { result ≡ most_recent (newest self.old.waiting.items) self.old.mark (length self.old.bitmap) }
    {
        if let Some(index) = self.waiting.pop() {
            self.bitmap.set(index);
            return Some(index);
        }
        if self.mark < self.bitmap.capacity() {
            let index = self.mark;
            self.bitmap.set(index);
            self.mark += 1;
            return Some(index);
        }
        None
    }

    fn free(&mut self, index: CellIndex) -> bool
        ensures frees { Frees self.old.bitmap index result self.new.bitmap }
        ensures waits { newest self.new.waiting.items ≡ joined_by index result (newest self.old.waiting.items) }
    {
        if !self.bitmap.clear(index) {
            return false;
        }
        self.waiting.push(index);
        true
    }

    // As in `NextFitBitmap`: the trait is for allocators of any kind, so it has no method of a bitmap's.
    fn capacity(&self) -> CellCount {
        self.bitmap.capacity()
    }

    fn is_allocated(&self, index: CellIndex) -> bool {
        self.bitmap.get(index)
    }

    fn available(&self) -> CellCount {
        // `try_from` would have a failure that cannot come: no more wait than there are numbers.
        self.bitmap.capacity() - self.mark + self.waiting.len() as CellCount
    }
}
