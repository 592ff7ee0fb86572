// An allocator that keeps one bit for each cell, and searches from where it last found one.
ghost use Rattle.std.specs.Prelude.{◌≡◌, ◌+◌, ◌≤◌, length, min, false, replicate};
ghost use Rattle.allocator.specs.Allocations.{capacity_limit, clear, Allocates, Frees, next_fit, behind};

use crate::allocator::CellAllocator;
use crate::bitmap::Bitmap;
use crate::limits::{CellCount, CellIndex};

/// A bitmap of the allocated cells. It hands out the first free number behind the one that it handed out last, and goes round.
#[derive(Drop)]
pub struct NextFitBitmap {
    bitmap: Bitmap,
    // where the search begins: behind the number that was allocated last
    next: CellIndex,
    used: CellCount,
    ghost within: { length bitmap ≤ capacity_limit },
    ghost starts: { next ≤ length bitmap },
    ghost counts: { clear bitmap + used ≡ length bitmap },
}

impl NextFitBitmap {
    /// An allocator of so many numbers, at most 4,096, of which none is allocated.
    pub fn new(size: CellCount) -> NextFitBitmap
        ensures empty { result.bitmap ≡ replicate (min size capacity_limit) false }
        ensures start { result.next ≡ 0 }
    {
        NextFitBitmap {
            bitmap: Bitmap::new(size),
            next: 0,
            used: 0,
        }
    }
}

impl CellAllocator for NextFitBitmap {
    ghost allocated = { λ a. a.bitmap };

    ghost bounded = { λ a. a.within };

    // Takes time in proportion to the words that it looks at.
    fn allocate(&mut self) -> Option<CellIndex>
        ensures allocates { Allocates self.old.bitmap result self.new.bitmap }
        ensures moves { self.new.next ≡ behind result self.old.next }
        ensures picks { result ≡ next_fit self.old.bitmap self.old.next }
    {
        let index = self.find()?;
        self.bitmap.set(index);
        self.next = index + 1;
        self.used += 1;
        Some(index)
    }

    fn free(&mut self, index: CellIndex) -> bool
        ensures frees { Frees self.old.bitmap index result self.new.bitmap }
        ensures stays { self.new.next ≡ self.old.next }
    {
        if !self.bitmap.clear(index) {
            return false;
        }
        self.used -= 1;
        true
    }

    fn capacity(&self) -> CellCount {
        self.bitmap.capacity()
    }

    fn is_allocated(&self, index: CellIndex) -> bool {
        self.bitmap.get(index)
    }

    fn available(&self) -> CellCount {
        self.bitmap.capacity() - self.used
    }
}

impl NextFitBitmap {
    // The first free number from where the search begins, or else from 0.
    fn find(&self) -> Option<CellIndex>
        ensures { result ≡ next_fit self.now.bitmap self.now.next }
    {
        self.bitmap
            .first_clear(self.next)
            .or_else(|| self.bitmap.first_clear(0))
    }
}
