// A forest: pools of tokens, links and versions that name one another's cells.
ghost use Rattle.std.specs.Prelude.{◌≡◌, ◌<◌, ◌≤◌, [], IfSome};
ghost use Rattle.pool.specs.Cells.{Fits, live_number};
ghost use Rattle.pool.specs.Counts.{slot, named};
ghost use Rattle.forest.specs.Blanks.{blank_token, blank_link, blank_version};
ghost use Rattle.forest.specs.Slots.{links, versions, then};
ghost use Rattle.forest.specs.States.{spare, Covers, Moved, Kept};

use crate::cells::{Head, Link, TokenCell, Version};
use crate::forest_cell::ForestCell;
use allocator::{CellAllocator, CellIndex};
use pool::Pool;

/// Trees of counted cells in memory that the caller lends: by a rule of the project they lie in no heap, and name one another by number.
// That no cell has fewer holders than slots name it is asked where cells move, and no invariant of the type: whoever prints or
// compares chains need not show it.
#[derive(Drop)]
pub struct Forest<'a> {
    pub tokens: Pool<'a, TokenCell>,
    pub links: Pool<'a, Link>,
    pub versions: Pool<'a, Version>,
}

impl<'a> Forest<'a> {
    // What stays live and what it holds (`Kept`) is a fact of these calls and of no value.

    /// One holder of a chain less. Links and tokens that nobody holds any more are given back.
    pub fn let_go<T: CellAllocator, L: CellAllocator>(
        &mut self,
        leaves: &mut T,
        joints: &mut L,
        first: Option<CellIndex>,
    )
        requires tokens { Fits (T.CellAllocator.allocated leaves.old) self.old.tokens }
        requires links { Fits (L.CellAllocator.allocated joints.old) self.old.links }
        requires covers { Covers self.old }
        requires held { IfSome first (λ n. 0 < spare self.old (slot links n)) }
        ensures moved { Moved self.old self.new (named (then links first [])) (λ _. 0) }
        ensures tokens { Fits (T.CellAllocator.allocated leaves.new) self.new.tokens }
        ensures links { Fits (L.CellAllocator.allocated joints.new) self.new.links }
        ensures kept_tokens { Kept blank_token self.old.tokens self.new.tokens }
        ensures kept_links { Kept blank_link self.old.links self.new.links }
        ensures versions { self.new.versions ≡ self.old.versions }
        ensures fewer { live_number self.new.links ≤ live_number self.old.links }
    {
        // What is let go changes while the chain is walked, so no iterator can lend it.
        let mut next = first;
        while let Some(n) = next {
            let Some(link) = Link::release(self, joints, n) else {
                return;
            };
            match link.head {
                Head::Token(token) => {
                    let _died = TokenCell::release(self, leaves, token);
                }
                Head::Form(inner) => self.let_go(leaves, joints, Some(inner)),
                Head::EmptyForm => {}
            }
            next = link.tail;
        }
    }

    /// One holder of a version less. Versions, links and tokens that nobody holds any more are given back.
    pub fn let_go_version<T: CellAllocator, L: CellAllocator, V: CellAllocator>(
        &mut self,
        leaves: &mut T,
        joints: &mut L,
        marks: &mut V,
        first: Option<CellIndex>,
    )
        requires tokens { Fits (T.CellAllocator.allocated leaves.old) self.old.tokens }
        requires links { Fits (L.CellAllocator.allocated joints.old) self.old.links }
        requires versions { Fits (V.CellAllocator.allocated marks.old) self.old.versions }
        requires covers { Covers self.old }
        requires held { IfSome first (λ n. 0 < spare self.old (slot versions n)) }
        ensures moved { Moved self.old self.new (named (then versions first [])) (λ _. 0) }
        ensures tokens { Fits (T.CellAllocator.allocated leaves.new) self.new.tokens }
        ensures links { Fits (L.CellAllocator.allocated joints.new) self.new.links }
        ensures versions { Fits (V.CellAllocator.allocated marks.new) self.new.versions }
        ensures kept_tokens { Kept blank_token self.old.tokens self.new.tokens }
        ensures kept_links { Kept blank_link self.old.links self.new.links }
        ensures kept_versions { Kept blank_version self.old.versions self.new.versions }
    {
        // As in `let_go`, no iterator can lend what changes.
        let mut next = first;
        while let Some(n) = next {
            let Some(version) = Version::release(self, marks, n) else {
                return;
            };
            self.let_go(leaves, joints, version.root);
            next = version.older;
        }
    }
}
