// A plan's row: two words a node.
ghost use Rattle.std.specs.Prelude.{◌≡◌, ◌+◌, ◌*◌, get_or};
ghost use Rattle.lists.specs.Fits.{NodeIn};

use crate::inner::rows;
use road::{Speed, Units};

// The metering rate of node i.
pub fn rate_at(row: &[u32], i: usize) -> Units
    requires { NodeIn 2 row.now i }
    ensures { result.0 ≡ get_or row.now (i * 2 + 0) 0 }
{
    Units(rows::word(row, 2, i, 0))
}

// The posted limit of node i.
pub fn limit_at(row: &[u32], i: usize) -> Speed
    requires { NodeIn 2 row.now i }
    ensures { result.0 ≡ get_or row.now (i * 2 + 1) 0 }
{
    Speed(rows::word(row, 2, i, 1))
}
