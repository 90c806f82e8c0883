// What the merged row of a set needs of it: the label, and the file rows that hang from it.
ghost use Rattle.std.specs.Prelude.{◌≡◌, false, ℕ, ◌<◌};
ghost use Rattle.ale.specs.PictureSignature.{picture_signature};
ghost use Rattle.ale.specs.Tree.{empty_label};
ghost use Rattle.row_sets.specs.Rows.{Found, holds};
ghost use Rattle.row_sets.specs.Labels.{Added, LabelIs, Valued};

use crate::label::{Label, join};
use crate::linked::Table;
use crate::rows::{RowSet, Successors};

// `first` is a row of the set; the number of rows if there is none.
#[derive(Clone, Copy)]
pub struct Values {
    pub label: Label,
    pub successors: Successors,
    pub first: usize,
}

impl Values {
    // Of no rows.
    pub fn none(rows: usize) -> Values
        ensures { (LabelIs result.label (empty_label picture_signature))
            × ((result.first ≡ rows) × ((j : ℕ) → holds result.successors.set j ≡ false)) }
    {
        Values {
            label: Label::empty(),
            successors: Successors::none(),
            first: rows,
        }
    }

    // With row j.
    pub fn add<'a>(self, table: &'a Table<'a>, j: usize) -> Values
        requires { j < table.now.rows }
        ensures { Added table.now.bytes.now table.now.rows j self result }
    {
        let successors = self.successors.add(table, j);
        Values {
            label: join(table.bytes, table.rows, self.label, j),
            successors,
            first: j,
        }
    }
}

// Of the rows of a set.
pub fn gather<'a>(table: &'a Table<'a>, set: RowSet) -> Values
    ensures first { Found (holds set) table.now.rows result.first }
    ensures values { Valued table.now.bytes.now table.now.rows (holds set) result }
{
    let mut values = Values::none(table.rows);
    for j in set.members(table.rows) {
        values = values.add(table, j);
    }
    values
}
