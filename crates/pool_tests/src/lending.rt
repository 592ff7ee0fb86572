// A slice that is lent to a pool, and comes back.
ghost use Rattle.std.specs.Prelude.{◌≡◌, min, length};

use crate::pair::Pair;
use pool::{Counted, Pool};

/// How many cells a pool over a slice has.
pub fn pool_size(cells: &mut [Counted<Pair>]) -> usize
    ensures { result ≡ min (length cells.old) 4096 }
{
    let pool = Pool::open(cells);
    let size = pool.size();
    drop(pool);
    size
}
