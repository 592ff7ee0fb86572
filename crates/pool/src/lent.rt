// A pool of counted cells over a lent slice.
ghost use Rattle.std.specs.Prelude.{◌≡◌, ◌+◌, ◌^◌, ◌<◌, min, Bool, true, List, length, take, drop, replicate};
ghost use Rattle.allocator.specs.Allocations.{capacity_limit};
ghost use Rattle.pool.specs.Cells.{live, at, vacant, contents, live_number, Fits, Puts, Retains, Releases};

use crate::cell::CellKind;
use crate::counted::{
    Counted, HolderCount, count, fits, get, is_live, live_number, put, release, retain,
};
use allocator::{CAPACITY_LIMIT, CellAllocator, CellIndex};
use std::marker::Model;

/// Counted cells in memory that the caller lends.
#[derive(Drop)]
pub struct Pool<'a, C> {
    cells: &'a mut [Counted<C>],
}

impl<'a, C> Model for Pool<'a, C> {
    ghost use Rattle.std.specs.Prelude.{List};
    ghost use Rattle.pool.specs.declared.counted.Counted.{Counted};

    ghost Value = { List (Counted C) };

    ghost view = { λ p. p.cells.now };
}

/// Makes the cells blank that a pool will stand on, the first ones and at most 4,096, and answers how many they are. The rest of the
/// slice stays as it was.
pub fn blank_front<C: CellKind>(cells: &mut [Counted<C>]) -> usize
    ensures size { result ≡ min (length cells.old) capacity_limit }
    ensures front { take result cells.new ≡ replicate result (vacant C.CellKind.empty) }
    ensures rest { drop result cells.new ≡ drop result cells.old }
    ensures length { length cells.new ≡ length cells.old }
{
    let size = cells.len().min(usize::from(CAPACITY_LIMIT));
    let vacant = Counted::vacant();
    cells[..size].fill_with(|| vacant);
    size
}

// Each method hands the slice on to a function over slices, which is there for any slice of counted cells and says exactly what is done.
impl<'a, C: CellKind> Pool<'a, C> {
    /// A pool over the first cells of a slice, at most 4,096, which are made blank.
    pub fn open(cells: &'a mut [Counted<C>]) -> Pool<'a, C>
        ensures { result ≡ replicate (min (length cells.old) capacity_limit) (vacant C.CellKind.empty) }
    {
        let size = blank_front(cells);
        Pool {
            cells: &mut cells[0..size],
        }
    }

    /// How many cells there are.
    pub fn size(&self) -> usize
        ensures { result ≡ length self.now }
    {
        self.cells.len()
    }

    /// Whether a cell is live.
    pub fn is_live(&self, n: CellIndex) -> bool
        ensures { result ≡ live (at C.CellKind.empty self.now n) }
    {
        is_live(self.cells, n)
    }

    /// How many holders a cell has.
    pub fn count(&self, n: CellIndex) -> HolderCount
        ensures { result ≡ (at C.CellKind.empty self.now n).count }
    {
        count(self.cells, n)
    }

    /// A copy of a live cell.
    pub fn get(&self, n: CellIndex) -> Option<C>
        ensures { result ≡ contents (at C.CellKind.empty self.now n) }
    {
        get(self.cells, n)
    }

    /// How many cells are live.
    pub fn live_number(&self) -> usize
        ensures { result ≡ live_number self.now }
    {
        live_number(self.cells)
    }

    /// Whether an allocator fits: its capacity is the pool's size, and its allocated numbers are exactly the live cells.
    pub fn fits<A: CellAllocator>(&self, allocator: &A) -> bool
        ensures yes { result ≡ true → Fits (A.CellAllocator.allocated allocator.now) self.now }
        ensures no { Fits (A.CellAllocator.allocated allocator.now) self.now → result ≡ true }
    {
        fits(self.cells, allocator)
    }

    /// Takes a number from the allocator and stores the cell there, with one holder; `None` where all are taken.
    pub fn put<A: CellAllocator>(&mut self, allocator: &mut A, cell: C) -> Option<CellIndex>
        requires { Fits (A.CellAllocator.allocated allocator.old) self.old }
        ensures puts { Puts C.CellKind.empty self.old cell result self.new }
        ensures fits { Fits (A.CellAllocator.allocated allocator.new) self.new }
    {
        put(self.cells, allocator, cell)
    }

    /// One holder more for a live cell.
    pub fn retain(&mut self, n: CellIndex)
        requires alive { live (at C.CellKind.empty self.old n) ≡ true }
        requires room { (at C.CellKind.empty self.old n).count + 1 < 2 ^ 16 }
        ensures retains { Retains C.CellKind.empty self.old n self.new }
        ensures fits { (bits : List Bool) → Fits bits self.old → Fits bits self.new }
    {
        retain(self.cells, n)
    }

    /// One holder less for a live cell; what it held, where it dies: the caller now holds what its slots name.
    pub fn release<A: CellAllocator>(&mut self, allocator: &mut A, n: CellIndex) -> Option<C>
        requires fits { Fits (A.CellAllocator.allocated allocator.old) self.old }
        requires alive { live (at C.CellKind.empty self.old n) ≡ true }
        ensures releases { Releases C.CellKind.empty self.old n result self.new }
        ensures fits { Fits (A.CellAllocator.allocated allocator.new) self.new }
    {
        release(self.cells, allocator, n)
    }
}
