// Commands, answers and refusals of the store, and the language of scripts.
#![tactic(auto)]

pub mod answer;
pub mod command;
pub mod laws;
mod parser;
pub mod path;
mod path_reader;
pub mod refusal;
pub mod report;
mod writer;

pub use answer::Answer;
pub use command::{Command, Handle, ItemNumber, Letter, UnknownLetter};
pub use parser::{LINE_LIMIT, parse};
pub use path::{PATH_LIMIT, Path, PathFull, Step};
pub use refusal::{PoolName, Refusal};
pub use report::{CellCounts, Report};
pub use writer::write_answer;
