// The unfolded picture as a file.
ghost use Rattle.std.specs.Prelude.{◌≡◌, ◌≤◌, length, take};
ghost use Rattle.table.specs.Bounds.{max_rows};
ghost use Rattle.table.specs.Layout.{«place», end_size};
ghost use Rattle.table.specs.NameValues.{set_of};
ghost use Rattle.unfold_rows.specs.Growing.{Filed, Growable};

use crate::unfold::unfold;
use definition_parts::opened::Tbox;
use table::layout::{END_SIZE, place};
use table_rows::builder::Builder;

// Writes it, and gives its rows; more than the limit if they are too many.
pub fn unfold_file(
    picture: &[u8],
    rows: usize,
    tbox: &Tbox<'_>,
    limit: usize,
    out: &mut [u8],
) -> usize
    requires { (Growable picture.now rows limit out.old) × («place» limit end_size ≤ length out.old) }
    ensures { Filed picture.now tbox.now.bytes.now tbox.now.starts.now (set_of tbox.now.defined) limit
        result out.old out.new }
{
    let count = unfold(picture, rows, tbox, limit, out);
    if count <= limit {
        let table = Builder { rows: count };
        table.finish(out);
    }
    count
}

// The file, from the table that it was written into.
pub fn file_part(out: &[u8], rows: usize) -> &[u8]
    requires { (rows ≤ max_rows) × («place» rows end_size ≤ length out.now) }
    ensures { result.now ≡ take («place» rows end_size) out.now }
{
    let end = place(rows, END_SIZE);
    &out[..end]
}
