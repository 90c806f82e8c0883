// A table with its links: what hangs from a row is found without a scan.
ghost use Rattle.std.specs.Prelude.{◌≡◌, ◌+◌};
ghost use Rattle.table.specs.Bounds.{max_rows};
ghost use Rattle.row_sets.specs.Rows.{Checked, LinkedTable};
ghost use Rattle.table_rows.specs.Links.{Zeros};

use crate::rows::{LINKS, fill_links};

#[derive(Clone, Copy)]
pub struct Table<'a> {
    pub bytes: &'a [u8],
    pub rows: usize,
    pub links: &'a [u8; LINKS],
    pub ghost linked: { LinkedTable bytes.now rows links.now },
}

impl<'a> Table<'a> {
    pub fn new(bytes: &'a [u8], rows: usize, links: &'a mut [u8; LINKS]) -> Table<'a>
        requires checked { Checked bytes.now rows }
        requires empty { Zeros (max_rows + max_rows) links.old }
        ensures bytes { result.bytes.now ≡ bytes.now }
        ensures rows { result.rows ≡ rows }
    {
        fill_links(bytes, rows, links);
        Table { bytes, rows, links }
    }
}
