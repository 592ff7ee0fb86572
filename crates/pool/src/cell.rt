// Kinds of cell: a blank value, and the cells that a cell names.
ghost use Rattle.std.specs.Prelude.{◌≡◌, List, []};
ghost use Rattle.std.specs.List.{slice_get};
ghost use Rattle.pool.specs.declared.cell.Slot.{Slot};

use allocator::CellIndex;

/// The number of a pool.
pub type PoolId = u8;

/// What names a cell: its pool and its number.
#[derive(Clone, Copy, PartialEq, Eq, Debug)]
pub struct Slot {
    pub pool: PoolId,
    pub index: CellIndex,
}

/// A kind of cell. A cell tells its slots: the cells that it names.
pub trait CellKind: Copy {
    ghost empty: { Self };

    ghost slots: { Self → List Slot };

    /// The cell of this kind that names nothing.
    fn blank() -> Self
        ensures { result ≡ empty };

    /// The slots one by one: number `k`, and `None` behind the last.
    fn slot(&self, k: usize) -> Option<Slot>
        ensures { result ≡ slice_get (slots self.now) k };

    ghost names_nothing: { slots empty ≡ [] };
}
