// Question 14.
ghost use Rattle.std.specs.Prelude.{◌≡◌, leb};
ghost use Rattle.table.specs.Bounds.{Bounded};
ghost use Rattle.picture.specs.Readable.{Readable};
ghost use Rattle.meaning.specs.NormalTable.{merged_count};

use crate::bound::is_bounded;
use crate::count::count;
use table::layout::{Limits, ROW_SIZE};

// Whether a picture has at most as many merged rows as the limits say. They are counted only where the bound leaves it
// open.
pub fn is_within(picture: &[u8], limits: Limits) -> bool
    requires { (Bounded limits) × (Readable limits picture.now) }
    ensures { result ≡ leb (merged_count limits picture.now) limits.rows }
{
    let rows = picture.len() / ROW_SIZE;
    if is_bounded(picture, rows, limits) {
        return true;
    }
    count(picture, rows, limits) <= limits.rows
}
