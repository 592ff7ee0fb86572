// A pool with an allocator that fits it.
ghost use Rattle.std.specs.Prelude.{◌≡◌, ◌+◌, ◌^◌, ◌<◌, true, IfOk, IfErr};
ghost use Rattle.pool.specs.Cells.{live, at, Fits, Puts, Retains, Releases};

use crate::cell::CellKind;
use crate::lent::Pool;
use allocator::{CellAllocator, CellIndex};
use std::marker::Model;

/// A pool and the allocator of its numbers, which has allocated exactly the live cells.
#[derive(Drop)]
pub struct FittedPool<'a, C: CellKind, A: CellAllocator> {
    pool: Pool<'a, C>,
    allocator: A,
}

impl<'a, C: CellKind, A: CellAllocator> Model for FittedPool<'a, C, A> {
    ghost use Rattle.std.specs.Prelude.{List};
    ghost use Rattle.pool.specs.Cells.{Fits};
    ghost use Rattle.pool.specs.declared.counted.Counted.{Counted};

    ghost Value = { List (Counted C) };

    ghost view = { λ s. s.pool };

    ghost invariant = { λ s. Fits (A.CellAllocator.allocated s.allocator) s.pool };
}

impl<'a, C: CellKind, A: CellAllocator> FittedPool<'a, C, A> {
    /// The pair, where the allocator fits; else both again.
    pub fn new(pool: Pool<'a, C>, allocator: A) -> Result<FittedPool<'a, C, A>, (Pool<'a, C>, A)>
        ensures fits { IfOk result (λ s. s ≡ pool.entry) }
        ensures differs { IfErr result (λ both. (both ≡ (pool.entry, allocator)) × (Fits (A.CellAllocator.allocated allocator) pool.entry → ⊥)) }
    {
        if pool.fits(&allocator) {
            Ok(FittedPool { pool, allocator })
        } else {
            Err((pool, allocator))
        }
    }

    /// The pool, to be looked at.
    pub fn pool(&self) -> &Pool<'a, C>
        ensures { result.now ≡ self.now }
    {
        &self.pool
    }

    /// The cell in a free place, with one holder; `None` where there is none.
    pub fn put(&mut self, cell: C) -> Option<CellIndex>
        ensures { Puts C.CellKind.empty self.old cell result self.new }
    {
        self.pool.put(&mut self.allocator, cell)
    }

    /// One holder more for a live cell.
    pub fn retain(&mut self, n: CellIndex)
        requires alive { live (at C.CellKind.empty self.old n) ≡ true }
        requires room { (at C.CellKind.empty self.old n).count + 1 < 2 ^ 16 }
        ensures { Retains C.CellKind.empty self.old n self.new }
    {
        self.pool.retain(n)
    }

    /// One holder less for a live cell; what it held, where it dies: the caller now holds what its slots name.
    pub fn release(&mut self, n: CellIndex) -> Option<C>
        requires { live (at C.CellKind.empty self.old n) ≡ true }
        ensures { Releases C.CellKind.empty self.old n result self.new }
    {
        self.pool.release(&mut self.allocator, n)
    }

    /// The pool and its allocator, which fits.
    pub fn into_parts(self) -> (Pool<'a, C>, A)
        ensures pool { result.0 ≡ self.entry }
        ensures fits { Fits (A.CellAllocator.allocated result.1) result.0 }
    {
        let FittedPool { pool, allocator } = self;
        (pool, allocator)
    }
}
