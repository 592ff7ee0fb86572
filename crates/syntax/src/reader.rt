// A reader that goes through a text lexeme by lexeme, and keeps account of the forms that are open.
ghost use Rattle.std.specs.Prelude.{◌≡◌, [], length, drop};
ghost use Rattle.syntax.specs.Readers.{text_of, place_of, opens_of, next, Next};

use crate::fault::ReadFault;
use crate::lexeme::{Lexeme, lexeme_at};
use crate::open_forms::OpenForms;

/// A reader on its way through a text.
#[derive(Clone, Copy)]
pub struct Reader<'a> {
    text: &'a [u8],
    at: usize,
    opens: OpenForms,
}

impl<'a> Reader<'a> {
    /// A reader at the beginning of a text.
    pub fn new(text: &'a [u8]) -> Reader<'a>
        ensures text { text_of result ≡ text.now }
        ensures place { place_of result ≡ 0 }
        ensures opens { opens_of result ≡ [] }
    {
        Reader {
            text,
            at: 0,
            opens: OpenForms::new(),
        }
    }

    /// The number of bytes that were read.
    pub fn place(&self) -> usize
        ensures { result ≡ place_of self.now }
    {
        self.at
    }

    /// How many forms are open.
    pub fn depth(&self) -> usize
        ensures { result ≡ length (opens_of self.now) }
    {
        self.opens.depth()
    }

    /// The next lexeme, or `None` at the end of the text. A fault leaves the reader where it is. Takes time in
    /// proportion to the lexeme.
    pub fn next(&mut self) -> Result<Option<Lexeme>, ReadFault>
        ensures { Next (next (opens_of self.old) (place_of self.old) (drop (place_of self.old) (text_of self.old))) self.old result self.new }
    {
        let Some(lexeme) = lexeme_at(self.text, self.at)? else {
            self.opens.finish()?;
            return Ok(None);
        };
        self.opens.enter(lexeme.kind, self.at)?;
        self.at += lexeme.len;
        Ok(Some(lexeme))
    }
}
