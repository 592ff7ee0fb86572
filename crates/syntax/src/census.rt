// How much a text holds: its tokens, forms and items, counted in one pass.
ghost use Rattle.std.specs.Prelude.{◌≡◌, ◌+◌, ◌^◌, ◌<◌, ◌≤◌, length, IfErr};
ghost use Rattle.syntax.specs.Faults.{place_of};
ghost use Rattle.syntax.specs.Census.{counted, Room, census};

use crate::fault::ReadFault;
use crate::kind::{ItemKind, Kind};
use crate::lexeme::LexemeKind;
use crate::reader::Reader;

/// How much a text holds.
#[derive(Clone, Copy, Default, PartialEq, Eq, Debug)]
pub struct Census {
    /// Tokens of each kind.
    pub line_ends: usize,
    pub blanks: usize,
    pub words: usize,
    pub quoted: usize,
    pub comments: usize,
    /// Tokens of all kinds.
    pub tokens: usize,
    pub forms: usize,
    /// Tokens and forms at every level.
    pub items: usize,
    /// Tokens and forms outside any form.
    pub top_items: usize,
    /// The kinds of the first and the last of these.
    pub first: Option<ItemKind>,
    pub last: Option<ItemKind>,
    /// The most forms that are open at once.
    pub nesting: usize,
}

impl Census {
    // Takes in one more lexeme, which is met while `depth` forms are open.
    fn count(&mut self, kind: LexemeKind, depth: usize)
        requires room { Room self.old }
        requires shallow { depth + 1 < 2 ^ 64 }
        ensures { self.new ≡ counted self.old kind depth }
    {
        let item = match kind {
            LexemeKind::Open => {
                self.forms += 1;
                self.nesting = self.nesting.max(depth + 1);
                ItemKind::Form
            }
            LexemeKind::Close => return,
            LexemeKind::Token(token) => {
                self.tokens += 1;
                match token {
                    Kind::LineEnd => self.line_ends += 1,
                    Kind::Blank => self.blanks += 1,
                    Kind::Word => self.words += 1,
                    Kind::Quoted => self.quoted += 1,
                    Kind::Comment => self.comments += 1,
                }
                ItemKind::Token(token)
            }
        };
        self.items += 1;
        if depth == 0 {
            self.top_items += 1;
            self.first = self.first.or(Some(item));
            self.last = Some(item);
        }
    }
}

/// What a text holds, or its first fault. One pass, which takes time in proportion to the text.
pub fn take_census(text: &[u8]) -> Result<Census, ReadFault>
    ensures value { result ≡ census text.now }
    ensures within { IfErr result (λ f. place_of f ≤ length text.now) }
{
    let mut reader = Reader::new(text);
    let mut census = Census::default();
    let mut depth = 0;
    while let Some(lexeme) = reader.next()? {
        census.count(lexeme.kind, depth);
        depth = reader.depth();
    }
    Ok(census)
}
