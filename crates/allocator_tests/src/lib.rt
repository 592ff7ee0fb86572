// One list of requests over both allocators, and the order in which each hands out numbers.
#![tactic(auto)]

#[cfg(test)]
mod order;
#[cfg(test)]
mod requests;
