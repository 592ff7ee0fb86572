// A pool and an allocator through a few calls, of which every answer is looked at.
use crate::pair::Pair;
use allocator::{CellAllocator, CellIndex, FreeStack, NextFitBitmap};
use pool::{CellKind, Counted, FittedPool, Pool, Slot};
use std::process::Abort;

const UNUSED: Counted<Pair> = Counted {
    count: 7,
    cell: Pair {
        number: 7,
        first: None,
        second: None,
    },
};

const VACANT: Counted<Pair> = Counted {
    count: 0,
    cell: Pair {
        number: 0,
        first: None,
        second: None,
    },
};

fn numbered(number: u8) -> Pair {
    Pair {
        number,
        first: None,
        second: None,
    }
}

// Puts cells until none is to be had.
fn fill<A: CellAllocator>(rt: &impl Abort, allocator: &mut A) {
    let mut cells = [UNUSED; 3];
    let mut pool = Pool::open(&mut cells);
    assert_eq!(rt; pool.size(), 3);
    assert_eq!(rt; pool.live_number(), 0);
    for number in 0..3 {
        assert!(rt; pool.fits(allocator));
        assert_eq!(rt;
            pool.put(allocator, numbered(number)),
            Some(number as CellIndex)
        );
        assert_eq!(rt; pool.get(number as CellIndex), Some(numbered(number)));
        assert_eq!(rt; pool.count(number as CellIndex), 1);
        assert_eq!(rt; pool.live_number(), number as usize + 1);
    }
    assert!(rt; pool.fits(allocator));
    assert_eq!(rt; allocator.available(), 0);
    assert_eq!(rt; pool.put(allocator, numbered(3)), None);
    assert_eq!(rt; pool.live_number(), 3);
    assert!(rt; !pool.is_live(3));
    assert_eq!(rt; pool.get(3), None);
}

#[test]
fn cells_are_put_until_none_is_to_be_had(rt: HostRuntime) {
    fill(&rt, &mut NextFitBitmap::new(3));
    fill(&rt, &mut FreeStack::new(3));
}

// Holds a cell three times, and lets it go three times.
fn hold<A: CellAllocator>(rt: &impl Abort, allocator: &mut A) {
    let mut cells = [UNUSED; 2];
    let mut pool = Pool::open(&mut cells);
    assert!(rt; pool.fits(allocator));
    assert_eq!(rt; pool.put(allocator, numbered(5)), Some(0));
    for holders in 1..3 {
        assert!(rt; pool.is_live(0));
        assert!(rt; pool.count(0) < 3);
        pool.retain(0);
        assert_eq!(rt; pool.count(0), holders + 1);
    }
    for released in 0..2 {
        assert!(rt; pool.fits(allocator));
        assert!(rt; pool.is_live(0));
        assert_eq!(rt; pool.release(allocator, 0), None);
        assert_eq!(rt; pool.count(0), 2 - released);
        assert!(rt; allocator.is_allocated(0));
        assert_eq!(rt; pool.get(0), Some(numbered(5)));
    }
    assert!(rt; pool.fits(allocator));
    assert!(rt; pool.is_live(0));
    assert_eq!(rt; pool.release(allocator, 0), Some(numbered(5)));
    assert!(rt; !pool.is_live(0));
    assert_eq!(rt; pool.count(0), 0);
    assert_eq!(rt; pool.get(0), None);
    assert!(rt; !allocator.is_allocated(0));
    assert!(rt; pool.fits(allocator));
    assert_eq!(rt; pool.live_number(), 0);
    drop(pool);
    assert_eq!(rt; cells[0], VACANT);
}

#[test]
fn a_cell_is_given_back_with_its_last_holder(rt: HostRuntime) {
    hold(&rt, &mut NextFitBitmap::new(2));
    hold(&rt, &mut FreeStack::new(2));
}

// Whether every cell is still as it was before a pool was opened.
fn unused(rt: &impl Abort, cells: &[Counted<Pair>]) {
    for counted in cells {
        assert_eq!(rt; *counted, UNUSED);
    }
}

#[test]
fn the_rest_of_a_long_slice_is_untouched(rt: HostRuntime) {
    let mut cells = [UNUSED; 4_099];
    let pool = Pool::open(&mut cells);
    assert_eq!(rt; pool.size(), 4_096);
    assert_eq!(rt; pool.live_number(), 0);
    drop(pool);
    assert_eq!(rt; cells[4_095], VACANT);
    unused(&rt, &cells[4_096..4_099]);
}

#[test]
fn an_allocator_fits_where_it_has_allocated_the_live_cells(rt: HostRuntime) {
    let mut cells = [UNUSED; 2];
    let mut pool = Pool::open(&mut cells);
    assert!(rt; !pool.fits(&NextFitBitmap::new(1)));
    assert!(rt; !pool.fits(&NextFitBitmap::new(3)));
    let mut ahead = FreeStack::new(2);
    assert_eq!(rt; ahead.allocate(), Some(0));
    assert!(rt; !pool.fits(&ahead));
    let mut fitting = FreeStack::new(2);
    assert!(rt; pool.fits(&fitting));
    assert_eq!(rt; pool.put(&mut fitting, numbered(1)), Some(0));
    assert!(rt; pool.fits(&ahead));
    assert!(rt; !pool.fits(&NextFitBitmap::new(2)));
}

// Pairs a pool of two cells with an allocator that does not fit and with one that does, and puts, holds and lets go.
fn pair<A: CellAllocator + Drop>(rt: &impl Abort, other: A, fitting: A) {
    let mut cells = [UNUSED; 2];
    let Err((pool, other)) = FittedPool::new(Pool::open(&mut cells), other) else {
        panic!(rt; "another allocator fits")
    };
    assert_eq!(rt; other.capacity(), 3);
    let Ok(mut fitted) = FittedPool::new(pool, fitting) else {
        panic!(rt; "a new allocator of the pool's size does not fit")
    };
    assert_eq!(rt; fitted.put(numbered(5)), Some(0));
    assert!(rt; fitted.pool().is_live(0));
    assert!(rt; fitted.pool().count(0) < 2);
    fitted.retain(0);
    assert_eq!(rt; fitted.put(numbered(6)), Some(1));
    assert_eq!(rt; fitted.put(numbered(7)), None);
    assert!(rt; fitted.pool().is_live(0));
    assert_eq!(rt; fitted.release(0), None);
    assert!(rt; fitted.pool().is_live(0));
    assert_eq!(rt; fitted.release(0), Some(numbered(5)));
    assert_eq!(rt; fitted.pool().live_number(), 1);
    let (pool, fitting) = fitted.into_parts();
    assert!(rt; pool.fits(&fitting));
    assert!(rt; !fitting.is_allocated(0));
    assert!(rt; fitting.is_allocated(1));
}

#[test]
fn a_pool_is_paired_with_an_allocator_that_fits(rt: HostRuntime) {
    pair(&rt, NextFitBitmap::new(3), NextFitBitmap::new(2));
    pair(&rt, FreeStack::new(3), FreeStack::new(2));
}

#[test]
fn a_pair_tells_its_slots_one_by_one(rt: HostRuntime) {
    let leaf = Slot { pool: 0, index: 3 };
    let link = Slot { pool: 1, index: 4 };
    let both = Pair {
        number: 1,
        first: Some(leaf),
        second: Some(link),
    };
    assert_eq!(rt; both.slot(0), Some(leaf));
    assert_eq!(rt; both.slot(1), Some(link));
    assert_eq!(rt; both.slot(2), None);
    let second = Pair {
        number: 1,
        first: None,
        second: Some(link),
    };
    assert_eq!(rt; second.slot(0), Some(link));
    assert_eq!(rt; second.slot(1), None);
    assert_eq!(rt; Pair::blank().slot(0), None);
}

// A cell of one pool names a cell of another: the hold moves into the slot, and comes back with the cell.
#[test]
fn what_a_dead_cell_named_is_held_by_the_caller(rt: HostRuntime) {
    let mut leaf_cells = [UNUSED; 2];
    let mut leaves = Pool::open(&mut leaf_cells);
    let mut leaf_numbers = NextFitBitmap::new(2);
    let mut pair_cells = [UNUSED; 2];
    let mut pairs = Pool::open(&mut pair_cells);
    let mut pair_numbers = FreeStack::new(2);
    assert!(rt; leaves.fits(&leaf_numbers));
    assert_eq!(rt; leaves.put(&mut leaf_numbers, numbered(9)), Some(0));
    let leaf = Slot { pool: 0, index: 0 };
    let naming = Pair {
        number: 1,
        first: Some(leaf),
        second: None,
    };
    assert!(rt; pairs.fits(&pair_numbers));
    assert_eq!(rt; pairs.put(&mut pair_numbers, naming), Some(0));
    assert!(rt; pairs.fits(&pair_numbers));
    assert!(rt; pairs.is_live(0));
    assert_eq!(rt; pairs.release(&mut pair_numbers, 0), Some(naming));
    assert_eq!(rt; leaves.count(0), 1);
    assert!(rt; leaves.fits(&leaf_numbers));
    assert!(rt; leaves.is_live(0));
    assert_eq!(rt; leaves.release(&mut leaf_numbers, 0), Some(numbered(9)));
    assert_eq!(rt; leaves.live_number() + pairs.live_number(), 0);
}
