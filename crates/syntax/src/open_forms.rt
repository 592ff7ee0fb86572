// The forms that are open while a text is read: the places of their open bytes, as a stack in a fixed array.
ghost use Rattle.std.specs.Prelude.{◌≤◌};
ghost use Rattle.syntax.specs.Limits.{nesting_limit};

use crate::fault::{BracketFault, BracketFaultKind};
use crate::lexeme::LexemeKind;
use crate::limits::NESTING_LIMIT;

// The library's vector of fixed capacity can't be copied, and a reader is copied to look ahead.
#[derive(Clone, Copy)]
pub struct OpenForms {
    places: [usize; NESTING_LIMIT],
    depth: usize,
    ghost within: { depth ≤ nesting_limit },
}

impl OpenForms {
    ghost use Rattle.std.specs.Prelude.{◌≡◌, [], length, Ok, Err, MatchResult, OnErr};
    ghost use Rattle.syntax.specs.OpenForms.{open_places};
    ghost use Rattle.syntax.specs.Reading.{opened, unclosed};

    /// No form is open.
    pub fn new() -> OpenForms
        ensures { open_places result ≡ [] }
    {
        OpenForms {
            places: [0; NESTING_LIMIT],
            depth: 0,
        }
    }

    /// How many forms are open.
    pub fn depth(&self) -> usize
        ensures { result ≡ length (open_places self.now) }
    {
        self.depth
    }

    /// Takes note of a lexeme at a place. A fault changes nothing.
    pub fn enter(&mut self, kind: LexemeKind, place: usize) -> Result<(), BracketFault>
        ensures cases { MatchResult result (λ _. opened (open_places self.old) place kind ≡ Ok (open_places self.new)) (λ f. opened (open_places self.old) place kind ≡ Err f) }
        ensures same { OnErr result (open_places self.new ≡ open_places self.old) }
    {
        match kind {
            LexemeKind::Open => {
                if self.depth >= NESTING_LIMIT {
                    return Err(BracketFault {
                        kind: BracketFaultKind::TooDeep,
                        place,
                    });
                }
                self.places[self.depth] = place;
                self.depth += 1;
            }
            LexemeKind::Close => {
                let Some(depth) = self.depth.checked_sub(1) else {
                    return Err(BracketFault {
                        kind: BracketFaultKind::UnmatchedClose,
                        place,
                    });
                };
                self.depth = depth;
            }
            LexemeKind::Token(_) => {}
        }
        Ok(())
    }

    /// The fault of a text that ends here, if a form is still open: the newest.
    pub fn finish(&self) -> Result<(), BracketFault>
        ensures { result ≡ unclosed tt (open_places self.now) }
    {
        match self.places[..self.depth].last() {
            None => Ok(()),
            Some(newest) => Err(BracketFault {
                kind: BracketFaultKind::UnclosedForm,
                place: *newest,
            }),
        }
    }
}
