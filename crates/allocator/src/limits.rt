// The numbers of cells, and how many there may be.

/// The number of a cell.
pub type CellIndex = u16;

/// How many cells there are.
pub type CellCount = u16;

/// The most cells that an allocator here may have.
pub const CAPACITY_LIMIT: CellCount = 4_096;
