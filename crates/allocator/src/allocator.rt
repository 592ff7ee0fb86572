// Allocators of cell numbers, by what they mean: which numbers are allocated.
ghost use Rattle.std.specs.Prelude.{◌≡◌, ◌≤◌, Bool, false, List, length, slice_index_or};
ghost use Rattle.allocator.specs.Allocations.{capacity_limit, clear, Allocates, Frees};

use crate::limits::{CellCount, CellIndex};

/// An allocator of the numbers below its capacity.
pub trait CellAllocator {
    // Bit n says whether n is allocated; there are as many bits as the capacity.
    ghost allocated: { Self → List Bool };

    /// A number that was not allocated, and is now; `None` where all are allocated.
    fn allocate(&mut self) -> Option<CellIndex>
        ensures { Allocates (allocated self.old) result (allocated self.new) };

    /// Gives a number back; says no, and changes nothing, where it is not allocated.
    fn free(&mut self, index: CellIndex) -> bool
        ensures { Frees (allocated self.old) index result (allocated self.new) };

    /// How many numbers there are. It never changes.
    fn capacity(&self) -> CellCount
        ensures { result ≡ length (allocated self.now) };

    /// Whether a number is allocated.
    fn is_allocated(&self, index: CellIndex) -> bool
        ensures { result ≡ slice_index_or (allocated self.now) index false };

    /// How many numbers are not allocated.
    fn available(&self) -> CellCount
        ensures { result ≡ clear (allocated self.now) };

    ghost bounded: { (a : Self) → length (allocated a) ≤ capacity_limit };
}
