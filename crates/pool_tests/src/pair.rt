// A kind of cell for trials: a number, and two slots that may name cells.
ghost use Rattle.std.specs.Prelude.{◌++◌, None, refl};
ghost use Rattle.std.specs.Option.{option_to_list};

use pool::{CellKind, Slot};

/// A number and two slots.
#[derive(Clone, Copy, PartialEq, Eq, Debug)]
pub struct Pair {
    pub number: u8,
    pub first: Option<Slot>,
    pub second: Option<Slot>,
}

impl CellKind for Pair {
    ghost empty = { record { number = 0; first = None; second = None } };

    ghost slots = { λ c. option_to_list c.first ++ option_to_list c.second };

    ghost names_nothing = { refl };

    fn blank() -> Pair {
        Pair {
            number: 0,
            first: None,
            second: None,
        }
    }

    fn slot(&self, k: usize) -> Option<Slot> {
        match k {
            0 => self.first.or(self.second),
            1 => self.first.and(self.second),
            _ => None,
        }
    }
}
