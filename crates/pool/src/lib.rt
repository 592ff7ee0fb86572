// One pool of counted cells, written once for every kind of cell.
#![tactic(auto)]

pub mod cell;
pub mod counted;
mod fitted;
pub mod laws;
mod lent;

pub use cell::{CellKind, PoolId, Slot};
pub use counted::{Counted, HolderCount};
pub use fitted::FittedPool;
pub use lent::Pool;
