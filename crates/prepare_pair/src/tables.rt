// The two normal tables that stand in the work space, as parts of it.
//   first_table    from byte 0 on
//   second_table   from the second half on
ghost use Rattle.std.specs.Prelude.{◌≡◌, ◌≤◌, length};
ghost use Rattle.table.specs.Bounds.{Bounded, max_rows};
ghost use Rattle.table.specs.Layout.{«place», end_size};
ghost use Rattle.prepare_pair.specs.Tables.{TablesIn, first_in, second_in};

use crate::prepare::{Pair, half_size};
use normal_writer::write::table_at;
use table::layout::{END_SIZE, Limits, place};

pub fn first_table(work: &[u8], pair: Pair) -> &[u8]
    requires { (pair.first ≤ max_rows) × («place» pair.first end_size ≤ length work.now) }
    ensures { result.now ≡ first_in pair work.now }
{
    &work[..place(pair.first, END_SIZE)]
}

pub fn second_table(work: &[u8], limits: Limits, pair: Pair) -> &[u8]
    requires { (Bounded limits) × (TablesIn limits work.now pair) }
    ensures { result.now ≡ second_in limits pair work.now }
{
    table_at(work, half_size(limits), pair.second)
}
