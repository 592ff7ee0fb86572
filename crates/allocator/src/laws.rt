// Laws of every allocator. Each function but the last stands for the theorem in its contract, and does nothing.
ghost use Rattle.std.specs.Prelude.{◌≡◌, ◌<◌, IfSome, MatchOption, ◌≢◌};
ghost use Rattle.allocator.specs.Allocations.{clear};
ghost use Rattle.allocator.specs.Laws.{AllocationTakesOne, FreeGivesOne, CapacityStays, AvailableWhereClear, TwoFree};

use crate::allocator::CellAllocator;
use crate::limits::CellIndex;

pub fn allocation_takes_one()
    ensures { AllocationTakesOne }
{}

pub fn free_gives_one()
    ensures { FreeGivesOne }
{}

pub fn capacity_stays()
    ensures { CapacityStays }
{}

pub fn available_where_clear()
    ensures { AvailableWhereClear }
{}

/// Takes two numbers and gives them back: they differ, and what is allocated is as before. `None` where two are not to be had;
/// then too it is as before.
pub fn borrow_two<A: CellAllocator>(allocator: &mut A) -> Option<(CellIndex, CellIndex)>
    ensures differ { IfSome result (λ two. two.0 ≢ two.1) }
    ensures two { MatchOption result (clear (A.CellAllocator.allocated allocator.old) < 2) (λ two. TwoFree (A.CellAllocator.allocated allocator.old) two.0 two.1) }
    ensures same { A.CellAllocator.allocated allocator.new ≡ A.CellAllocator.allocated allocator.old }
{
    let first = allocator.allocate()?;
    let Some(second) = allocator.allocate() else {
        let _freed = allocator.free(first);
        return None;
    };
    let _freed = allocator.free(second);
    let _freed = allocator.free(first);
    Some((first, second))
}
