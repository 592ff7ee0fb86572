// Walks along chains.
ghost use Rattle.std.specs.Prelude.{◌≡◌, ◌+◌, ◌≤◌, ◌++◌, length, take, drop};
ghost use Rattle.forest.specs.Printing.{Room, Prints};

use crate::cells::{Head, TokenCell};
use crate::forest::Forest;
use allocator::CellIndex;
use notation::put_bytes;

// The bytes of a token.
fn print_token(cell: TokenCell, buffer: &mut [u8], at: usize) -> usize
    requires length { cell.length ≤ 32 }
    requires room { at + cell.length ≤ length buffer.old }
    ensures place { result ≡ at + cell.length }
    ensures put { take result buffer.new ≡ take at buffer.old ++ take cell.length cell.bytes }
    ensures rest { drop result buffer.new ≡ drop result buffer.old }
    ensures length { length buffer.new ≡ length buffer.old }
{
    put_bytes(buffer, at, cell.text())
}

impl<'a> Forest<'a> {
    /// Puts the bytes of a chain at a place, and answers the place behind them.
    pub fn print(&self, buffer: &mut [u8], at: usize, first: Option<CellIndex>) -> usize
        requires { Room self.now first at buffer.old }
        ensures { Prints self.now first at buffer.old result buffer.new }
    {
        // With `iter::successors`, the proof that the chain ends, which only its tree shows, does not close.
        let mut place = at;
        let mut next = first;
        while let Some(n) = next {
            let Some(link) = self.links.get(n) else {
                return place;
            };
            match link.head {
                Head::Token(token) => {
                    let Some(cell) = self.tokens.get(token) else {
                        return place;
                    };
                    place = print_token(cell, buffer, place);
                }
                Head::Form(inner) => {
                    place = put_bytes(buffer, place, b"(");
                    place = self.print(buffer, place, Some(inner));
                    place = put_bytes(buffer, place, b")");
                }
                Head::EmptyForm => {
                    place = put_bytes(buffer, place, b"()");
                }
            }
            next = link.tail;
        }
        place
    }
}
