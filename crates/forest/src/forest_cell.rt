// The kinds of cell of which a forest has a pool: a cell is put, retained or released, and the holders of cells move with it.
ghost use Rattle.std.specs.Prelude.{◌≡◌, ℕ, ◌+◌, ◌^◌, ◌<◌, ◌≤◌, Bool, true, List, [], ◌∷◌};
ghost use Rattle.pool.specs.Cells.{live, at, live_number, Fits, Puts};
ghost use Rattle.pool.specs.Counts.{slot, named};
ghost use Rattle.pool.specs.declared.cell.Slot.{Slot};
ghost use Rattle.pool.specs.declared.counted.Counted.{Counted};
ghost use Rattle.forest.specs.Slots.{tokens, links, versions};
ghost use Rattle.forest.specs.States.{State, spare, Covers, Moved, Kept, Grown, given_up, died, PutIn};
ghost use Rattle.forest.specs.Pools.{IsPool, with_tokens, with_links, with_versions, token_pool, link_pool, version_pool};

use crate::cells::{Link, TokenCell, Version};
use crate::forest::Forest;
use allocator::{CellAllocator, CellIndex};
use pool::CellKind;

/// A kind of cell of which a forest has a pool.
pub trait ForestCell: CellKind {
    // The number of the pool.
    ghost number: { ℕ };

    // Its cells.
    ghost cells: { State → List (Counted Self) };

    // The state with these for its cells.
    ghost with_cells: { State → List (Counted Self) → State };

    /// Puts it in a cell of its own, with one holder: the caller's holds on what it names are now in it. `None` where all cells are
    /// taken.
    fn put<A: CellAllocator>(self, forest: &mut Forest<'_>, allocator: &mut A) -> Option<CellIndex>
        requires fits { Fits (A.CellAllocator.allocated allocator.old) (cells forest.old) }
        requires covers { Covers forest.old }
        requires held { (s : Slot) → named (Self.slots self) s ≤ spare forest.old s }
        ensures puts { Puts Self.empty (cells forest.old) self result (cells forest.new) }
        ensures moved { PutIn Self.slots number forest.old forest.new self result }
        ensures fits { Fits (A.CellAllocator.allocated allocator.new) (cells forest.new) }
        ensures others { forest.new ≡ with_cells forest.old (cells forest.new) };

    /// One holder of a live cell more.
    fn retain(forest: &mut Forest<'_>, n: CellIndex)
        requires covers { Covers forest.old }
        requires alive { live (at Self.empty (cells forest.old) n) ≡ true }
        requires room { (at Self.empty (cells forest.old) n).count + 1 < 2 ^ 16 }
        ensures moved { Moved forest.old forest.new (λ _. 0) (named (slot number n ∷ [])) }
        ensures grown { Grown Self.empty (cells forest.old) (cells forest.new) }
        ensures fits { (bits : List Bool) → Fits bits (cells forest.old) → Fits bits (cells forest.new) }
        ensures others { forest.new ≡ with_cells forest.old (cells forest.new) };

    /// One holder of a cell less; what it held, where it dies: the caller now holds what its slots name.
    fn release<A: CellAllocator>(
        forest: &mut Forest<'_>,
        allocator: &mut A,
        n: CellIndex,
    ) -> Option<Self>
        requires fits { Fits (A.CellAllocator.allocated allocator.old) (cells forest.old) }
        requires covers { Covers forest.old }
        requires held { 0 < spare forest.old (slot number n) }
        ensures moved { Moved forest.old forest.new (named (slot number n ∷ [])) (named (given_up Self.slots result)) }
        ensures dies { live_number (cells forest.new) + died result ≡ live_number (cells forest.old) }
        ensures fits { Fits (A.CellAllocator.allocated allocator.new) (cells forest.new) }
        ensures kept { Kept Self.empty (cells forest.old) (cells forest.new) }
        ensures others { forest.new ≡ with_cells forest.old (cells forest.new) };

    ghost is_pool: { IsPool number Self.slots cells with_cells };
}

// A function that lends the pool of a kind would need a clause over memory for each kind; nine bodies of one call say it more plainly.
impl ForestCell for TokenCell {
    ghost number = { tokens };

    ghost cells = { λ st. st.tokens };

    ghost with_cells = { with_tokens };

    ghost is_pool = { token_pool };

    fn put<A: CellAllocator>(
        self,
        forest: &mut Forest<'_>,
        allocator: &mut A,
    ) -> Option<CellIndex> {
        forest.tokens.put(allocator, self)
    }

    fn retain(forest: &mut Forest<'_>, n: CellIndex) {
        forest.tokens.retain(n)
    }

    fn release<A: CellAllocator>(
        forest: &mut Forest<'_>,
        allocator: &mut A,
        n: CellIndex,
    ) -> Option<TokenCell> {
        forest.tokens.release(allocator, n)
    }
}

impl ForestCell for Link {
    ghost number = { links };

    ghost cells = { λ st. st.links };

    ghost with_cells = { with_links };

    ghost is_pool = { link_pool };

    fn put<A: CellAllocator>(
        self,
        forest: &mut Forest<'_>,
        allocator: &mut A,
    ) -> Option<CellIndex> {
        forest.links.put(allocator, self)
    }

    fn retain(forest: &mut Forest<'_>, n: CellIndex) {
        forest.links.retain(n)
    }

    fn release<A: CellAllocator>(
        forest: &mut Forest<'_>,
        allocator: &mut A,
        n: CellIndex,
    ) -> Option<Link> {
        forest.links.release(allocator, n)
    }
}

impl ForestCell for Version {
    ghost number = { versions };

    ghost cells = { λ st. st.versions };

    ghost with_cells = { with_versions };

    ghost is_pool = { version_pool };

    fn put<A: CellAllocator>(
        self,
        forest: &mut Forest<'_>,
        allocator: &mut A,
    ) -> Option<CellIndex> {
        forest.versions.put(allocator, self)
    }

    fn retain(forest: &mut Forest<'_>, n: CellIndex) {
        forest.versions.retain(n)
    }

    fn release<A: CellAllocator>(
        forest: &mut Forest<'_>,
        allocator: &mut A,
        n: CellIndex,
    ) -> Option<Version> {
        forest.versions.release(allocator, n)
    }
}
