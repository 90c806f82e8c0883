// A table with its links and masks: what hangs from a set of rows is found by role and kind.
ghost use Rattle.std.specs.Prelude.{◌≡◌};
ghost use Rattle.table_rows.specs.Links.{Zeros};
ghost use Rattle.row_sets.specs.Rows.{Masked};

use crate::linked::Table;
use crate::rows::{MASKS, fill_masks};

#[derive(Clone, Copy)]
pub struct Survey<'a> {
    pub table: Table<'a>,
    pub masks: &'a [u64; MASKS],
    pub ghost masked: { Masked table.bytes.now table.rows masks.now },
}

impl<'a> Survey<'a> {
    pub fn new(table: Table<'a>, masks: &'a mut [u64; MASKS]) -> Survey<'a>
        requires { Zeros 256 masks.old }
        ensures { result.table ≡ table.entry }
    {
        fill_masks(table.bytes, table.rows, masks);
        Survey { table, masks }
    }
}
