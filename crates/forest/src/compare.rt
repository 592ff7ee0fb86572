// Whether two chains have the same tree.
ghost use Rattle.std.specs.Prelude.{◌≡◌, ◌≤◌, true, Decides};
ghost use Rattle.forest.specs.Comparing.{Alike, Compares, HasTree};
ghost use Rattle.forest.specs.Unfolding.{token_at};
ghost use Rattle.pool.specs.Cells.{live};

use crate::cells::{Head, TokenCell};
use crate::forest::Forest;
use allocator::CellIndex;

fn alike(left: TokenCell, right: TokenCell) -> bool
    requires left { left.length ≤ 32 }
    requires right { right.length ≤ 32 }
    ensures { Decides result (Alike left right) }
{
    left.kind == right.kind && left.text() == right.text()
}

impl<'a> Forest<'a> {
    // Whether two live token cells are alike: a derived comparison would look at bytes that are not used.
    fn same_token(&self, left: CellIndex, right: CellIndex) -> bool
        requires left { (live (token_at self.now left) ≡ true) × ((token_at self.now left).cell.length ≤ 32) }
        requires right { (live (token_at self.now right) ≡ true) × ((token_at self.now right).cell.length ≤ 32) }
        ensures { Decides result (Alike (token_at self.now left).cell (token_at self.now right).cell) }
    {
        let (Some(one), Some(other)) = (self.tokens.get(left), self.tokens.get(right)) else {
            return false;
        };
        alike(one, other)
    }

    /// Whether two chains have the same tree. Chains that begin with the same link are not walked.
    pub fn same(&self, left: Option<CellIndex>, right: Option<CellIndex>) -> bool
        requires left { HasTree self.now left }
        requires right { HasTree self.now right }
        ensures { Compares self.now left right result }
    {
        // As in `print`: with `iter::successors`, the proof that the chains end does not close.
        let mut one = left;
        let mut other = right;
        while let (Some(m), Some(n)) = (one, other) {
            if m == n {
                return true;
            }
            let Some(a) = self.links.get(m) else {
                return false;
            };
            let Some(b) = self.links.get(n) else {
                return false;
            };
            match (a.head, b.head) {
                (Head::Token(x), Head::Token(y)) => {
                    if !self.same_token(x, y) {
                        return false;
                    }
                }
                (Head::Form(x), Head::Form(y)) => {
                    if !self.same(Some(x), Some(y)) {
                        return false;
                    }
                }
                (Head::EmptyForm, Head::EmptyForm) => {}
                _ => return false,
            }
            one = a.tail;
            other = b.tail;
        }
        one.is_none() && other.is_none()
    }
}
