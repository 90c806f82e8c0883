// The depths of a table's rows in one pass.
ghost use Rattle.std.specs.Prelude.{◌≡◌};
ghost use Rattle.unfold_depth.specs.Depths.{Hung, shallow};

use picture_questions::question::depth_at;
use table::layout::MAX_ROWS;

// Whether no row stands deeper than allowed. Row 0 stands at depth 0, and each other row one below its parent, which
// comes before it.
pub fn is_shallow(table: &[u8], rows: usize, limit: usize) -> bool
    requires { Hung table.now rows limit }
    ensures { result ≡ shallow table.now rows limit }
{
    let mut depths = [0u8; MAX_ROWS];
    for n in 1..rows {
        let depth = depth_at(table, n, &depths);
        if limit < depth {
            return false;
        }
        depths[n] = depth as u8;
    }
    true
}
