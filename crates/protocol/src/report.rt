// How many cells a call took and gave back.

/// So many cells of each pool.
#[derive(Clone, Copy, PartialEq, Eq, Debug)]
pub struct CellCounts {
    pub tokens: u16,
    pub links: u16,
    pub versions: u16,
}

/// What a call took from the allocators, and what it gave back.
#[derive(Clone, Copy, PartialEq, Eq, Debug)]
pub struct Report {
    pub taken: CellCounts,
    pub freed: CellCounts,
}
