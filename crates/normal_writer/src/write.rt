// Whole tables: the normal table of a picture, with its end field, at the start of a lent part or in a half of the work
// space.
ghost use Rattle.std.specs.Prelude.{◌≡◌, ◌++◌, ◌+◌, ◌≤◌, length, take};
ghost use Rattle.table.specs.Bounds.{max_rows};
ghost use Rattle.table.specs.Fields.{end_bytes};
ghost use Rattle.table.specs.Layout.{«place», end_size};
ghost use Rattle.table.specs.Put.{put};
ghost use Rattle.meaning.specs.NormalTable.{normal_file};
ghost use Rattle.normal.specs.Half.{half_of};
ghost use Rattle.table_rows.specs.Rows.{prefix};
ghost use Rattle.normal_writer.specs.Tables.{HalfRoom, RowsRoom, TableRoom, Tabled, table_in, table_rows};

use crate::grow::build;
use table::layout::{END_SIZE, Limits, MAX_ROWS, ROW_SIZE, place};
use table::number::{clear, copy_in};
use table_rows::builder::Builder;

// As many bytes as the rows of the longest table take.
pub const SCRATCH: usize = ROW_SIZE * MAX_ROWS;

// The same with the end field.
pub const TABLE: usize = SCRATCH + END_SIZE;

// Writes the normal table of a picture, and gives its rows; 0 if 14 is answered no, for a table has a row. What the part
// holds past the table, or then, is not said: a buffer of the caller's is lent only once 14 is answered yes.
pub fn normal_table(picture: &[u8], limits: Limits, out: &mut [u8]) -> usize
    requires { TableRoom limits picture.now out.old }
    ensures { Tabled limits picture.now out.old result out.new }
{
    let built = build(picture, picture.len() / ROW_SIZE, limits, out);
    if limits.rows < built.merged {
        return 0;
    }
    let table = built.table;
    table.finish(out);
    table.rows
}

// The table of so many rows at the start of a part.
pub fn table_of(part: &[u8], rows: usize) -> &[u8]
    requires { (rows ≤ max_rows) × («place» rows end_size ≤ length part.now) }
    ensures { result.now ≡ take («place» rows end_size) part.now }
{
    &part[..place(rows, END_SIZE)]
}

// The table of so many rows from a byte on.
pub fn table_at(part: &[u8], start: usize, rows: usize) -> &[u8]
    requires { (rows ≤ max_rows) × (start + «place» rows end_size ≤ length part.now) }
    ensures { result.now ≡ table_in part.now start rows }
{
    &part[start..start + place(rows, END_SIZE)]
}

// Copies the rows of a table under construction and ends the table there; its length in bytes.
pub fn write_table(scratch: &[u8], table: Builder, out: &mut [u8]) -> usize
    requires { RowsRoom table.rows scratch.now out.old }
    ensures { (result ≡ «place» table.rows end_size) × (out.new ≡ put out.old 0 (prefix table.rows scratch.now ++ end_bytes)) }
{
    let rows = table.rows;
    copy_in(out, 0, &scratch[..place(rows, 0)]);
    table.finish(out)
}

// Builds the normal table of a picture, of which 14 is answered yes, in a half of the work space and clears the rest of
// it; the table's rows.
pub fn build_half(picture: &[u8], limits: Limits, half: &mut [u8]) -> usize
    requires { HalfRoom limits picture.now half.old }
    ensures { (result ≡ table_rows limits picture.now)
        × (half.new ≡ half_of limits (normal_file limits picture.now)) }
{
    let rows = normal_table(picture, limits, half);
    let end = place(rows, END_SIZE);
    clear(half, end, half.len());
    rows
}
