// A table under construction: the rows are counted by value, and the bytes stay in the lent part.
ghost use Rattle.std.specs.Prelude.{◌≡◌, ℕ, ◌+◌, ◌≤◌, ◌<◌, length};
ghost use Rattle.table.specs.Layout.{«place», row_size, end_size};
ghost use Rattle.table.specs.Bounds.{max_rows};
ghost use Rattle.table.specs.Put.{put};
ghost use Rattle.table.specs.Fields.{end_bytes};
ghost use Rattle.table_rows.specs.Rows.{row_bytes};

use crate::row::write_end;
use table::layout::{END_SIZE, EXCLUDED_AT, ROW_LENGTH, ROW_TAG, WANTED_AT, place};
use table::number::{copy_in, number_bytes};
use table::row::Row;

#[derive(Clone, Copy)]
pub struct Builder {
    pub rows: usize,
}

impl Builder {
    pub fn new() -> Builder
        ensures { result.rows ≡ 0 }
    {
        Builder { rows: 0 }
    }

    // The table with one row more, which is written after those that are there.
    pub fn push(self, out: &mut [u8], row: Row) -> Builder
        requires { (self.rows < max_rows) × («place» self.rows row_size ≤ length out.old) }
        ensures { (result.rows ≡ self.rows + 1) × (out.new ≡ put out.old («place» self.rows 0) (row_bytes row)) }
    {
        let rows = self.rows;
        let length = number_bytes(ROW_LENGTH);
        let parent = number_bytes(row.parent);
        let head = [
            ROW_TAG,
            length[0],
            length[1],
            parent[0],
            parent[1],
            row.kind,
            row.role,
            row.impossible,
        ];
        copy_in(out, place(rows, 0), &head);
        row.wanted.store(out, place(rows, WANTED_AT));
        row.excluded.store(out, place(rows, EXCLUDED_AT));
        Builder { rows: rows + 1 }
    }

    // Ends the table, and gives its length in bytes.
    pub fn finish(self, out: &mut [u8]) -> usize
        requires { (self.rows ≤ max_rows) × («place» self.rows end_size ≤ length out.old) }
        ensures { (result ≡ «place» self.rows end_size) × (out.new ≡ put out.old («place» self.rows 0) end_bytes) }
    {
        let rows = self.rows;
        write_end(out, place(rows, 0));
        place(rows, END_SIZE)
    }
}
