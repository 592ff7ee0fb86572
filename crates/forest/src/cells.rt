// The three kinds of cell: tokens, links and versions.
ghost use Rattle.std.specs.Prelude.{◌≡◌, ◌≤◌, [], refl, take};
ghost use Rattle.std.specs.Option.{option_to_list};
ghost use Rattle.forest.specs.Blanks.{blank_token, blank_link, blank_version};
ghost use Rattle.forest.specs.Slots.{links, versions, then, head_slots};

use allocator::CellIndex;
use pool::{CellKind, PoolId, Slot};
use syntax::Kind;

/// The pools of a forest.
// By the rule that a slot is a pool's number and a cell's number: a pool knows no kinds of cell above it.
pub const TOKENS: PoolId = 0;

pub const LINKS: PoolId = 1;

pub const VERSIONS: PoolId = 2;

/// A token: its kind, its length from 1 to 32, and its bytes; those that are not used are 0.
// A cell is copied and has a fixed size, so its bytes are an array with their length beside.
#[derive(Clone, Copy, PartialEq, Eq, Debug)]
pub struct TokenCell {
    pub kind: Kind,
    pub length: u8,
    pub bytes: [u8; 32],
}

/// The first item of a chain: a token, a form by the first link of its chain, or a form with nothing in it.
#[derive(Clone, Copy, PartialEq, Eq, Debug)]
pub enum Head {
    Token(CellIndex),
    Form(CellIndex),
    EmptyForm,
}

impl Head {
    /// The cell that it names, if it names one.
    pub fn slot(self) -> Option<Slot>
        ensures { option_to_list result ≡ head_slots self [] }
    {
        match self {
            Head::Token(index) => Some(Slot {
                pool: TOKENS,
                index,
            }),
            Head::Form(index) => Some(Slot { pool: LINKS, index }),
            Head::EmptyForm => None,
        }
    }
}

/// A chain that is not empty: its first item, the link of the items after it, and how many bytes the chain prints to.
#[derive(Clone, Copy, PartialEq, Eq, Debug)]
pub struct Link {
    pub head: Head,
    pub tail: Option<CellIndex>,
    pub width: u16,
}

/// A text that was kept: the first link of its chain, the version before it, and how many versions are before it.
#[derive(Clone, Copy, PartialEq, Eq, Debug)]
pub struct Version {
    pub root: Option<CellIndex>,
    pub older: Option<CellIndex>,
    pub steps: u16,
}

impl TokenCell {
    /// Its own bytes, without those that are not used.
    pub fn text(&self) -> &[u8]
        requires { self.now.length ≤ 32 }
        ensures { result.now ≡ take self.now.length self.now.bytes }
    {
        &self.bytes[..usize::from(self.length)]
    }
}

impl CellKind for TokenCell {
    ghost empty = { blank_token };

    ghost slots = { λ _. [] };

    ghost names_nothing = { refl };

    fn blank() -> TokenCell {
        TokenCell {
            kind: Kind::LineEnd,
            length: 0,
            bytes: [0; 32],
        }
    }

    fn slot(&self, _k: usize) -> Option<Slot> {
        None
    }
}

impl CellKind for Version {
    ghost empty = { blank_version };

    ghost slots = { λ c. then links c.root (then versions c.older []) };

    ghost names_nothing = { refl };

    fn blank() -> Version {
        Version {
            root: None,
            older: None,
            steps: 0,
        }
    }

    fn slot(&self, k: usize) -> Option<Slot> {
        let root = self.root.map(|index| Slot { pool: LINKS, index });
        let older = self.older.map(|index| Slot {
            pool: VERSIONS,
            index,
        });
        match k {
            0 => root.or(older),
            1 => root.and(older),
            _ => None,
        }
    }
}

impl CellKind for Link {
    ghost empty = { blank_link };

    ghost slots = { λ c. head_slots c.head (then links c.tail []) };

    ghost names_nothing = { refl };

    fn blank() -> Link {
        Link {
            head: Head::EmptyForm,
            tail: None,
            width: 0,
        }
    }

    fn slot(&self, k: usize) -> Option<Slot> {
        let tail = self.tail.map(|index| Slot { pool: LINKS, index });
        let head = self.head.slot();
        match k {
            0 => head.or(tail),
            1 => head.and(tail),
            _ => None,
        }
    }
}
