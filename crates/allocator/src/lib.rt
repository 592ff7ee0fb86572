// Where cell numbers come from: allocators by their meaning, and two of them.
#![tactic(auto)]

pub mod allocator;
mod bitmap;
pub mod free_stack;
pub mod laws;
pub mod limits;
pub mod next_fit;

pub use allocator::CellAllocator;
pub use free_stack::FreeStack;
pub use laws::borrow_two;
pub use limits::{CAPACITY_LIMIT, CellCount, CellIndex};
pub use next_fit::NextFitBitmap;
