// The line that is printed for a file, from its name and its bytes.
ghost use Rattle.std.specs.Prelude.{◌≡◌, ℕ, List, is_ok, Some, Err};
ghost use Rattle.inspect.specs.declared.report.Complaint.TheVariants.{Unreadable as of_error};
ghost use Rattle.inspect.specs.Reports.{well_formed, holding_words, outcome_words, report_line};

use std::{fmt, io};
use syntax::{Position, ReadFault, TEXT_LIMIT, count_lines, locate, take_census};

/// What is said of a file: one line.
#[derive(Drop)]
pub struct Report<'a> {
    pub name: &'a str,
    /// What came of reading it: what it holds, if it is well formed.
    pub outcome: Result<Holding, Complaint>,
}

/// What is wrong with a file.
#[derive(Drop)]
pub enum Complaint {
    /// Its first fault, and where that is.
    Faulty(Position, ReadFault),
    TooLong,
    /// Its bytes could not be had.
    Unreadable(io::Error),
}

/// What a well-formed file holds.
#[derive(Clone, Copy, PartialEq, Eq, Debug)]
pub struct Holding {
    pub bytes: usize,
    pub lines: usize,
    // Of its census only what is told: to count the rest as well takes half as long again.
    pub tokens: usize,
    pub forms: usize,
    pub items: usize,
    pub nesting: usize,
}

/// The report on a file, by its name and its bytes. Takes time in proportion to the bytes.
pub fn inspect_text<'a>(name: &'a str, text: &[u8]) -> Report<'a>
    ensures line { outcome_words result.name.now result.outcome ≡ Some (report_line name.now text.now) }
    ensures well_formed { is_ok result.outcome ≡ well_formed text.now }
{
    Report {
        name,
        outcome: read(text),
    }
}

// What comes of reading a text.
fn read(text: &[u8]) -> Result<Holding, Complaint>
    ensures words { (name : List ℕ) → outcome_words name result ≡ Some (report_line name text.now) }
    ensures well_formed { is_ok result ≡ well_formed text.now }
{
    if text.len() > TEXT_LIMIT {
        return Err(Complaint::TooLong);
    }
    match take_census(text) {
        Ok(census) => Ok(Holding {
            bytes: text.len(),
            lines: count_lines(text),
            tokens: census.tokens,
            forms: census.forms,
            items: census.items,
            nesting: census.nesting,
        }),
        Err(fault) => {
            // A fault lies within its text, so it has a position.
            let Some(position) = locate(text, fault.place()) else {
                unreachable!()
            };
            Err(Complaint::Faulty(position, fault))
        }
    }
}

impl<'a> Report<'a> {
    /// The report on a file whose bytes could not be had.
    pub fn unreadable(name: &'a str, error: io::Error) -> Report<'a>
        ensures name { result.name.now ≡ name.now }
        ensures outcome { result.outcome ≡ Err (of_error error) }
    {
        Report {
            name,
            outcome: Err(Complaint::Unreadable(error)),
        }
    }

    /// Whether the file is well formed.
    pub fn well_formed(&self) -> bool
        ensures { result ≡ is_ok self.now.outcome }
    {
        self.outcome.is_ok()
    }
}

impl<'a> fmt::Display for Report<'a> {
    ghost output = { λ r. outcome_words r.name.now r.outcome };

    fn fmt<W: fmt::Write>(&self, f: &mut fmt::Formatter<W>) -> fmt::Result {
        let name = self.name;
        match &self.outcome {
            Ok(holding) => write!(f, "{name}: ok: {holding}"),
            Err(Complaint::Faulty(position, fault)) => {
                write!(f, "{name}:{position}: error: {fault}")
            }
            Err(Complaint::TooLong) => {
                write!(f, "{name}: error: file is longer than 32000 bytes")
            }
            Err(Complaint::Unreadable(error)) => write!(f, "{name}: error: {error}"),
        }
    }
}

impl fmt::Display for Holding {
    ghost output = { λ h. Some (holding_words h) };

    fn fmt<W: fmt::Write>(&self, f: &mut fmt::Formatter<W>) -> fmt::Result {
        let Holding {
            bytes,
            lines,
            tokens,
            forms,
            items,
            nesting,
        } = *self;
        write!(
            f,
            "{bytes} bytes, {lines} lines, {tokens} tokens, {forms} forms, {items} items, nesting {nesting}",
        )
    }
}
