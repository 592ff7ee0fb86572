// Counted cells in a slice: one is put, retained or released. That the allocator fits is required call by call, since slice and
// allocator are lent apart; a `FittedPool` owns both, and asks it once.
ghost use Rattle.std.specs.Prelude.{◌≡◌, ◌+◌, ◌^◌, ◌<◌, Bool, true, List};
ghost use Rattle.pool.specs.Cells.{live, at, vacant, contents, live_number, Fits, Puts, Retains, Releases};

use crate::cell::CellKind;
use allocator::{CellAllocator, CellIndex};
use std::mem;

/// How many holders a cell has.
pub type HolderCount = u16;

// A cell dies with its last holder.
const LAST_HOLDER: HolderCount = 1;

/// A cell with the number of its holders. It is live where there is one.
#[derive(Clone, Copy, PartialEq, Eq, Debug)]
pub struct Counted<C> {
    pub count: HolderCount,
    pub cell: C,
}

impl<C> Counted<C> {
    /// Whether the cell has a holder.
    pub fn is_live(&self) -> bool
        ensures { result ≡ live self.now }
    {
        self.count > 0
    }
}

impl<C: CellKind> Counted<C> {
    /// A blank cell that nobody holds.
    pub fn vacant() -> Counted<C>
        ensures { result ≡ vacant C.CellKind.empty }
    {
        Counted {
            count: 0,
            cell: C::blank(),
        }
    }
}

// Where a cell is written, and in `fits`, a number is cast by `as`: behind `usize::from` these get no proof.

/// Whether a cell is live; no number past the end is.
pub fn is_live<C: CellKind>(cells: &[Counted<C>], n: CellIndex) -> bool
    ensures { result ≡ live (at C.CellKind.empty cells.now n) }
{
    cells
        .get(usize::from(n))
        .is_some_and(|counted| counted.is_live())
}

/// How many holders a cell has; 0 for a number past the end.
pub fn count<C: CellKind>(cells: &[Counted<C>], n: CellIndex) -> HolderCount
    ensures { result ≡ (at C.CellKind.empty cells.now n).count }
{
    cells.get(usize::from(n)).map_or(0, |counted| counted.count)
}

/// A copy of a live cell.
pub fn get<C: CellKind>(cells: &[Counted<C>], n: CellIndex) -> Option<C>
    ensures { result ≡ contents (at C.CellKind.empty cells.now n) }
{
    cells
        .get(usize::from(n))
        .filter(|counted| counted.is_live())
        .map(|counted| counted.cell)
}

/// How many cells are live.
pub fn live_number<C: CellKind>(cells: &[Counted<C>]) -> usize
    ensures { result ≡ live_number cells.now }
{
    cells
        .iter()
        .map(|counted| usize::from(counted.is_live()))
        .sum()
}

/// Whether an allocator fits the cells: it has as many numbers, and has allocated exactly the live ones.
pub fn fits<C: CellKind, A: CellAllocator>(cells: &[Counted<C>], allocator: &A) -> bool
    ensures yes { result ≡ true → Fits (A.CellAllocator.allocated allocator.now) cells.now }
    ensures no { Fits (A.CellAllocator.allocated allocator.now) cells.now → result ≡ true }
{
    let capacity = allocator.capacity();
    let size = cells.len();
    capacity as usize == size
        && (0..capacity).all(|n| allocator.is_allocated(n) == is_live(cells, n))
}

/// Takes a number from the allocator and stores the cell there, with one holder; `None` where all are taken.
pub fn put<C: CellKind, A: CellAllocator>(
    cells: &mut [Counted<C>],
    allocator: &mut A,
    cell: C,
) -> Option<CellIndex>
    requires { Fits (A.CellAllocator.allocated allocator.old) cells.old }
    ensures puts { Puts C.CellKind.empty cells.old cell result cells.new }
    ensures fits { Fits (A.CellAllocator.allocated allocator.new) cells.new }
{
    let index = allocator.allocate()?;
    cells[index as usize] = Counted { count: 1, cell };
    Some(index)
}

/// One holder more for a live cell.
// That the cell is live, here and in `release`, is a fact of the call and of no value: whoever holds it knows.
pub fn retain<C: CellKind>(cells: &mut [Counted<C>], n: CellIndex)
    requires alive { live (at C.CellKind.empty cells.old n) ≡ true }
    requires room { (at C.CellKind.empty cells.old n).count + 1 < 2 ^ 16 }
    ensures retains { Retains C.CellKind.empty cells.old n cells.new }
    ensures fits { (bits : List Bool) → Fits bits cells.old → Fits bits cells.new }
{
    cells[n as usize].count += 1;
}

/// One holder less for a live cell. A cell that has none left is blanked, its number goes back to the allocator, and what it held is
/// answered: the caller now holds what its slots name.
pub fn release<C: CellKind, A: CellAllocator>(
    cells: &mut [Counted<C>],
    allocator: &mut A,
    n: CellIndex,
) -> Option<C>
    requires fits { Fits (A.CellAllocator.allocated allocator.old) cells.old }
    requires alive { live (at C.CellKind.empty cells.old n) ≡ true }
    ensures releases { Releases C.CellKind.empty cells.old n result cells.new }
    ensures fits { Fits (A.CellAllocator.allocated allocator.new) cells.new }
{
    let counted = &mut cells[n as usize];
    if counted.count > LAST_HOLDER {
        counted.count -= 1;
        return None;
    }
    let died = mem::replace(counted, Counted::vacant());
    let _freed = allocator.free(n);
    Some(died.cell)
}
