// What a finished command answers.
use crate::command::Letter;
use crate::refusal::Refusal;
use crate::report::Report;

/// The answer to a command.
#[derive(Clone, Copy, PartialEq, Eq, Debug)]
pub enum Answer {
    Loaded(Report),
    Spliced(Report),
    Forked,
    Undone(Report),
    Released(Report),
    /// A text was printed; it is handed in beside the answer.
    Printed,
    /// Whether two texts are the same.
    Compared(bool),
    /// The letter is that of the command, where the line was one.
    Refused {
        letter: Option<Letter>,
        refusal: Refusal,
    },
}
