// Numbers and pieces of lines, as bytes that are read and put.
#![tactic(auto)]

mod line;
mod numbers;

pub use line::{push_numbers, put_bytes, put_numbers};
pub use numbers::{after, number, spaced_number, whole_number};
