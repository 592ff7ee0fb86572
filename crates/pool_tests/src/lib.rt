// Pools of a kind of cell with two slots, over both allocators.
#![tactic(auto)]

pub mod lending;
pub mod pair;
#[cfg(test)]
mod trials;
