// Unfolding of a picture's rows: each comes up in its turn, and the definitions that it takes in are hung to it.
ghost use Rattle.table.specs.NameValues.{set_of};
ghost use Rattle.unfold_rows.specs.Growing.{Attachable, Attached, Growable, Rising, Risen, Unfolded};

use crate::copy::{copy_rows, hang};
use crate::relabel::{label_of, relabel};
use crate::take::take_in;
use definition_parts::names::NameWalk;
use definition_parts::opened::Tbox;
use table::names::Names;
use table_rows::builder::Builder;
use table_rows::row::wanted;

// The definitions of a set, hung to row i by rising name.
fn hang_all(
    taken: Names,
    tbox: &Tbox<'_>,
    i: usize,
    limit: usize,
    out: &mut [u8],
    table: Builder,
) -> Builder
    requires { Attachable (set_of tbox.now.defined) (set_of taken) limit table.rows out.old }
    ensures { Attached tbox.now.bytes.now tbox.now.starts.now (set_of taken) i limit table.rows
        out.old result.rows out.new }
{
    let mut grown = table;
    for name in NameWalk::over(taken) {
        grown = hang(tbox.definition(name), i, limit, out, grown);
    }
    grown
}

// Row i comes up.
fn come_up(i: usize, tbox: &Tbox<'_>, limit: usize, out: &mut [u8], table: Builder) -> Builder
    requires { Rising i limit table.rows out.old }
    ensures { Risen tbox.now.bytes.now tbox.now.starts.now (set_of tbox.now.defined) i limit table.rows
        out.old result.rows out.new }
{
    let names = wanted(out, i);
    if !names.overlaps(tbox.defined) {
        return table;
    }
    let s = take_in(label_of(out, i), tbox);
    relabel(out, i, s, tbox.defined);
    hang_all(s.taken, tbox, i, limit, out, table)
}

// The unfolded rows of a picture, and how many they are; more than the limit if they are too many.
pub fn unfold(picture: &[u8], rows: usize, tbox: &Tbox<'_>, limit: usize, out: &mut [u8]) -> usize
    requires { Growable picture.now rows limit out.old }
    ensures { Unfolded picture.now tbox.now.bytes.now tbox.now.starts.now (set_of tbox.now.defined) limit
        result out.old out.new }
{
    let mut table = copy_rows(picture, rows, out);
    let mut i = 0;
    // The rows that are gained come up as well, so there is no end to count to.
    while i < table.rows {
        if limit < table.rows {
            return table.rows;
        }
        table = come_up(i, tbox, limit, out, table);
        i += 1;
    }
    table.rows
}
