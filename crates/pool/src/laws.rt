// Laws of counted cells, for every kind of cell. Each function but the last stands for the theorem in its contract, and does nothing.
ghost use Rattle.std.specs.Prelude.{◌≡◌, length, nat_lt};
ghost use Rattle.pool.specs.Cells.{live_number, Fits, Tidy};
ghost use Rattle.pool.specs.Laws.{EachStepKeepsTheCounts, NamedCellsAreLive, NobodyHoldsADeadCell, LiveCellsBalance, DeadCellsStayBlank, NewPoolsCountAndFit};

use crate::cell::CellKind;
use crate::counted::{Counted, put, release};
use allocator::CellAllocator;

pub fn each_step_keeps_the_counts<C: CellKind>()
    ensures { EachStepKeepsTheCounts C.CellKind.slots C.CellKind.empty }
{}

pub fn named_cells_are_live()
    ensures { NamedCellsAreLive }
{}

pub fn nobody_holds_a_dead_cell()
    ensures { NobodyHoldsADeadCell }
{}

pub fn live_cells_balance<C: CellKind>()
    ensures { LiveCellsBalance C.CellKind.empty }
{}

pub fn dead_cells_stay_blank<C: CellKind>()
    ensures { DeadCellsStayBlank C.CellKind.empty }
{}

pub fn new_pools_count_and_fit<C: CellKind>()
    ensures { NewPoolsCountAndFit C.CellKind.slots C.CellKind.empty }
{}

/// Puts a cell and lets it go again, where there is room: every cell is as it was, and so is what is allocated.
pub fn put_and_release<C: CellKind, A: CellAllocator>(
    cells: &mut [Counted<C>],
    allocator: &mut A,
    cell: C,
) -> bool
    requires fits { Fits (A.CellAllocator.allocated allocator.old) cells.old }
    requires tidy { Tidy C.CellKind.empty cells.old }
    ensures room { result ≡ nat_lt (live_number cells.old) (length cells.old) }
    ensures same { cells.new ≡ cells.old }
    ensures fits { Fits (A.CellAllocator.allocated allocator.new) cells.new }
{
    let Some(index) = put(cells, allocator, cell) else {
        return false;
    };
    release(cells, allocator, index).is_some()
}
