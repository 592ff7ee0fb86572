// What a text is: byte classes, tokens, the reader with its faults, positions.
// The names that callers use are all here.
#![tactic(auto)]

pub mod census;
pub mod class;
pub mod fault;
pub mod kind;
pub mod lexeme;
pub mod limits;
pub mod message;
mod open_forms;
pub mod position;
pub mod reader;
pub mod theorems;

pub use census::{Census, take_census};
pub use class::{Class, class_of};
pub use fault::{
    BracketFault, BracketFaultKind, Fault, Layer, ReadFault, TokenFault, TokenFaultKind,
};
pub use kind::{ItemKind, Kind};
pub use lexeme::{Lexeme, LexemeKind, lexeme_at};
pub use limits::{NESTING_LIMIT, TEXT_LIMIT, TOKEN_LIMIT};
pub use position::{Position, count_lines, locate};
pub use reader::Reader;
pub use theorems::{pieces_joined_are_the_text, short_texts_hold_what_they_should};
