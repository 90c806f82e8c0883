// Rows of a picture, copied into a table under construction.
ghost use Rattle.std.specs.Prelude.{◌≡◌, ℕ, ◌≤◌, length};
ghost use Rattle.table.specs.Bounds.{max_rows};
ghost use Rattle.table.specs.Layout.{«place»};
ghost use Rattle.table_rows.specs.Rows.{HasRow, row_bytes};
ghost use Rattle.ale.specs.PictureSignature.{picture_signature};
ghost use Rattle.tbox.specs.Unfold.{parent_in};
ghost use Rattle.unfold_rows.specs.Copies.{Added, Hangable, Hung, Source, copy_bytes, copy_of};

use table::layout::ROW_SIZE;
use table::row::Row;
use table_rows::builder::Builder;
use table_rows::row::{excluded, impossible, kind, parent, role, wanted};

// Row k of a picture, hung from another row.
pub fn copied(s: &[u8], k: usize, parent: usize) -> Row
    requires { HasRow s.now k }
    ensures { row_bytes result ≡ copy_of s.now k parent }
{
    Row {
        parent,
        kind: kind(s, k),
        role: role(s, k),
        impossible: impossible(s, k),
        wanted: wanted(s, k),
        excluded: excluded(s, k),
    }
}

// The rows of a picture as they are.
pub fn copy_rows(s: &[u8], rows: usize, out: &mut [u8]) -> Builder
    requires { (Source s.now rows) × («place» rows 0 ≤ length out.old) }
    ensures { (result.rows ≡ rows)
        × (Added out.old out.new (copy_bytes s.now (λ p. p) 0 rows) 0 rows) }
{
    let mut table = Builder::new();
    for k in 0..rows {
        table = table.push(out, copied(s, k, parent(s, k)));
    }
    table
}

// The row from which a copy hangs: what hung from the root hangs from row i, the others from the copy of their parent.
fn hung_from(up: usize, i: usize, first: usize) -> usize
    requires { (up ≤ max_rows) × (first ≤ max_rows) }
    ensures { result ≡ parent_in picture_signature i first up }
{
    if up == 0 {
        return i;
    }
    first + up - 1
}

// The rows of a definition but its root; what hung from the root hangs from row i.
pub fn hang(s: &[u8], i: usize, limit: usize, out: &mut [u8], table: Builder) -> Builder
    requires { Hangable s.now limit table.rows out.old }
    ensures { Hung s.now i limit table.rows out.old result.rows out.new }
{
    let first = table.rows;
    let rows = s.len() / ROW_SIZE;
    if limit + 1 < first + rows {
        return Builder { rows: limit + 1 };
    }
    let mut grown = table;
    for k in 1..rows {
        let above = hung_from(parent(s, k), i, first);
        grown = grown.push(out, copied(s, k, above));
    }
    grown
}
