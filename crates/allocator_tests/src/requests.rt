// The same requests, answered by each allocator within the meaning.
use allocator::{CellAllocator, CellCount, FreeStack, NextFitBitmap, borrow_two};
use std::process::Abort;

// Fills an empty allocator, drains it, and fills it again.
fn fill_drain_refill<A: CellAllocator>(rt: &impl Abort, allocator: &mut A, capacity: CellCount) {
    assert_eq!(rt; allocator.capacity(), capacity);
    assert_eq!(rt; allocator.available(), capacity);
    fill(rt, allocator, capacity);
    for index in 0..capacity {
        assert!(rt; allocator.is_allocated(index));
        assert!(rt; allocator.free(index));
        assert!(rt; !allocator.is_allocated(index));
        assert!(rt; !allocator.free(index));
    }
    assert_eq!(rt; allocator.available(), capacity);
    fill(rt, allocator, capacity);
}

fn fill<A: CellAllocator>(rt: &impl Abort, allocator: &mut A, capacity: CellCount) {
    for taken in 0..capacity {
        assert_eq!(rt; allocator.available(), capacity - taken);
        assert!(rt; allocator.allocate().is_some());
    }
    assert_eq!(rt; allocator.available(), 0);
    assert_eq!(rt; allocator.allocate(), None);
}

const SIZES: [CellCount; 6] = [0, 1, 63, 64, 65, 4_096];

#[test]
fn a_bitmap_fills_drains_and_refills(rt: HostRuntime) {
    for size in SIZES {
        fill_drain_refill(&rt, &mut NextFitBitmap::new(size), size);
    }
    fill_drain_refill(&rt, &mut NextFitBitmap::new(5_000), 4_096);
}

#[test]
fn a_stack_fills_drains_and_refills(rt: HostRuntime) {
    for size in SIZES {
        fill_drain_refill(&rt, &mut FreeStack::new(size), size);
    }
    fill_drain_refill(&rt, &mut FreeStack::new(5_000), 4_096);
}

#[test]
fn what_is_not_allocated_is_not_freed(rt: HostRuntime) {
    let mut bitmap = NextFitBitmap::new(3);
    let mut stack = FreeStack::new(3);
    for index in [0, 2, 3, 4_096, 65_535] {
        assert!(rt; !bitmap.free(index));
        assert!(rt; !stack.free(index));
    }
    assert_eq!(rt; bitmap.available(), 3);
    assert_eq!(rt; stack.available(), 3);
}

#[test]
fn two_numbers_are_borrowed_from_either(rt: HostRuntime) {
    assert_eq!(rt; borrow_two(&mut NextFitBitmap::new(2)), Some((0, 1)));
    assert_eq!(rt; borrow_two(&mut FreeStack::new(2)), Some((0, 1)));
    assert_eq!(rt; borrow_two(&mut NextFitBitmap::new(1)), None);
    assert_eq!(rt; borrow_two(&mut FreeStack::new(1)), None);
}
