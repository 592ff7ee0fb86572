// The tree of a text, and the laws of reading, printing and editing. Each function of `laws` stands for the theorem in its
// contract, and does nothing.
#![tactic(auto)]

pub mod laws;
