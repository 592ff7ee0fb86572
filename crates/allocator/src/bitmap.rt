// Bits packed in words of 64, which a contract sees as their list.
ghost use Rattle.std.specs.Prelude.{◌≡◌, ◌+◌, ◌*◌, ◌/◌, ◌<◌, ◌≤◌, length, max, drop, min, true, false, replicate, slice_index_or, slice_set};
ghost use Rattle.std.specs.Option.{option_or};
ghost use Rattle.allocator.specs.Allocations.{capacity_limit, first_clear, Frees};

use crate::limits::{CAPACITY_LIMIT, CellCount, CellIndex};
use std::marker::Model;

const WORD_BITS: CellCount = 64;

// As many words as the largest bitmap needs.
const WORDS: usize = CAPACITY_LIMIT as usize / WORD_BITS as usize;

/// At most 4,096 bits. The words and the number of bits stand beside each other: no memory of the system is taken, and a vector of
/// fixed capacity has whole items only.
#[derive(Drop)]
pub struct Bitmap {
    words: [u64; WORDS],
    capacity: CellCount,
}

impl Model for Bitmap {
    ghost use Rattle.std.specs.Prelude.{Bool, List, ◌≤◌};
    ghost use Rattle.allocator.specs.Allocations.{capacity_limit};
    ghost use Rattle.allocator.specs.Bitmaps.{bits};

    ghost Value = { List Bool };

    ghost view = { λ b. bits b.words b.capacity };

    ghost invariant = { λ b. b.capacity ≤ capacity_limit };
}

// A word's number is an index by `as`: behind `usize::from`, reading and writing it get no proof.
impl Bitmap {
    /// So many bits, at most 4,096, all of them clear.
    pub fn new(size: CellCount) -> Bitmap
        ensures { result ≡ replicate (min size capacity_limit) false }
    {
        Bitmap {
            words: [0; WORDS],
            capacity: size.min(CAPACITY_LIMIT),
        }
    }

    /// How many bits there are.
    pub fn capacity(&self) -> CellCount
        ensures value { result ≡ length self.now }
        ensures within { result ≤ capacity_limit }
    {
        self.capacity
    }

    /// Whether bit n is set; none past the end is.
    pub fn get(&self, n: CellIndex) -> bool
        ensures { result ≡ slice_index_or self.now n false }
    {
        n < self.capacity && (self.words[(n / WORD_BITS) as usize] >> (n % WORD_BITS)) & 1 == 1
    }

    /// Sets bit n.
    pub fn set(&mut self, n: CellIndex)
        requires { n < length self.old }
        ensures { self.new ≡ slice_set self.old n true }
    {
        self.words[(n / WORD_BITS) as usize] |= 1 << (n % WORD_BITS);
    }

    /// Clears bit n; says no, and changes nothing, where it is not set.
    pub fn clear(&mut self, n: CellIndex) -> bool
        ensures { Frees self.old n result self.new }
    {
        if !self.get(n) {
            return false;
        }
        self.words[(n / WORD_BITS) as usize] &= !(1 << (n % WORD_BITS));
        true
    }

    /// The first clear bit from `from` on.
    pub fn first_clear(&self, from: CellIndex) -> Option<CellIndex>
        ensures { result ≡ first_clear (drop from self.now) from }
    {
        // a search most often begins at a clear bit
        if from < self.capacity && !self.get(from) {
            return Some(from);
        }
        // one word after the other, so that full ones are skipped whole
        for word in from / WORD_BITS..self.capacity.div_ceil(WORD_BITS) {
            if let Some(n) = self.first_clear_in(word, from) {
                return Some(n);
            }
        }
        None
    }

    // The first clear bit of one word, from `from` on: what is found from there on is this one, or else one behind the word.
    fn first_clear_in(&self, word: CellIndex, from: CellIndex) -> Option<CellIndex>
        requires within { word < 64 }
        requires behind { from / 64 ≤ word }
        ensures { first_clear (drop (max from (word * 64)) self.now) (max from (word * 64)) ≡ option_or result (first_clear (drop (word * 64 + 64) self.now) (word * 64 + 64)) }
    {
        // a full word takes one comparison
        if self.words[word as usize] == u64::MAX {
            return None;
        }
        let low = from.max(word * WORD_BITS);
        let ones = (self.words[word as usize] >> (low % WORD_BITS)).trailing_ones();
        let n = low + ones as CellIndex;
        (n / WORD_BITS == word && n < self.capacity).then_some(n)
    }
}
