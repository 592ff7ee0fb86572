// Trees of counted cells: built, shared, let go and walked.
#![tactic(auto)]

pub mod cells;
mod compare;
pub mod forest;
pub mod forest_cell;
pub mod laws;
mod walk;
