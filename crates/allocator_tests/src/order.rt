// The order in which numbers come.
use allocator::{CellAllocator, FreeStack, NextFitBitmap};

#[test]
fn a_bitmap_goes_on_behind_the_last_and_round(rt: HostRuntime) {
    let mut bitmap = NextFitBitmap::new(3);
    assert_eq!(rt; bitmap.allocate(), Some(0));
    assert_eq!(rt; bitmap.allocate(), Some(1));
    assert!(rt; bitmap.free(0));
    assert_eq!(rt; bitmap.allocate(), Some(2));
    assert_eq!(rt; bitmap.allocate(), Some(0));
    assert_eq!(rt; bitmap.allocate(), None);
}

#[test]
fn a_bitmap_skips_full_words(rt: HostRuntime) {
    let mut bitmap = NextFitBitmap::new(200);
    for index in 0..200 {
        assert_eq!(rt; bitmap.allocate(), Some(index));
    }
    assert!(rt; bitmap.free(130));
    assert!(rt; bitmap.free(199));
    assert_eq!(rt; bitmap.allocate(), Some(130));
    assert_eq!(rt; bitmap.allocate(), Some(199));
}

#[test]
fn a_stack_hands_out_the_last_freed_first(rt: HostRuntime) {
    let mut stack = FreeStack::new(4);
    assert_eq!(rt; stack.allocate(), Some(0));
    assert_eq!(rt; stack.allocate(), Some(1));
    assert_eq!(rt; stack.allocate(), Some(2));
    assert!(rt; stack.free(0));
    assert!(rt; stack.free(2));
    assert_eq!(rt; stack.allocate(), Some(2));
    assert_eq!(rt; stack.allocate(), Some(0));
    assert_eq!(rt; stack.allocate(), Some(3));
    assert_eq!(rt; stack.allocate(), None);
}
