// Where a place is in a text, as editors count: lines and columns, both from 1.
ghost use Rattle.std.specs.Prelude.{◌≡◌, ◌+◌, ◌≤◌, length};
ghost use Rattle.syntax.specs.Positions.{ends_line, line_ends, unfinished, position, lines};

use crate::class::{Class, class_of};
use crate::limits::TEXT_LIMIT;

/// A line and a column of a text. A column counts bytes.
#[derive(Clone, Copy, PartialEq, Eq, Debug)]
pub struct Position {
    pub line: usize,
    pub column: usize,
}

/// The position of a place, the number of bytes before it; `None` where that is past the end or the text is above the
/// limit. Takes time in proportion to the place.
pub fn locate(text: &[u8], place: usize) -> Option<Position>
    ensures { result ≡ position text.now place }
{
    if place > text.len() || text.len() > TEXT_LIMIT {
        return None;
    }
    let before = &text[..place];
    Some(Position {
        line: 1 + line_ends(before),
        column: 1 + unfinished(before),
    })
}

/// How many lines a text has: bytes behind the last line end are a line too. Takes time in proportion to the text.
pub fn count_lines(text: &[u8]) -> usize
    ensures { result ≡ lines text.now }
{
    let is_unfinished = text.last().is_some_and(|byte| !ends_line(*byte));
    line_ends(text) + usize::from(is_unfinished)
}

#[tactic(auto, using(crate::proofs::Lines::line_ends_and_unfinished))]
fn line_ends(bytes: &[u8]) -> usize
    ensures value { result ≡ line_ends bytes.now }
    ensures within { result + unfinished bytes.now ≤ length bytes.now }
{
    bytes.iter().filter(|byte| ends_line(**byte)).count()
}

// The bytes behind the last line end.
fn unfinished(bytes: &[u8]) -> usize
    ensures value { result ≡ unfinished bytes.now }
    ensures within { result ≤ length bytes.now }
{
    bytes
        .iter()
        .rev()
        .take_while(|byte| !ends_line(**byte))
        .count()
}

fn ends_line(byte: u8) -> bool
    ensures { result ≡ ends_line byte }
{
    matches!(class_of(byte), Class::LineEnd)
}
