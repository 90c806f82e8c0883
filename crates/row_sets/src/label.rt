// The label of a set of rows: the unions of the names, and whether any is marked. The mark is a word, so that a label
// is words alone.
ghost use Rattle.std.specs.Prelude.{◌≡◌, ◌&&◌, ◌||◌, false, ◌<◌, eqb};
ghost use Rattle.table.specs.Fields.{impossible_of};
ghost use Rattle.table.specs.NameSet.{none};
ghost use Rattle.table.specs.NameValues.{overlap, set_of};
ghost use Rattle.row_sets.specs.Rows.{Checked};
ghost use Rattle.row_sets.specs.Labels.{Joined};

use table::names::Names;
use table_rows::row::{excluded, impossible, wanted};

#[derive(Clone, Copy)]
pub struct Label {
    pub wanted: Names,
    pub excluded: Names,
    pub bottom: u64,
}

impl Label {
    pub fn empty() -> Label
        ensures { (set_of result.wanted ≡ none) × (set_of result.excluded ≡ none)
            × (eqb result.bottom 1 ≡ false) }
    {
        Label {
            wanted: Names::none(),
            excluded: Names::none(),
            bottom: 0,
        }
    }

    // The mark, or a name both wanted and excluded.
    pub fn clashes(self) -> bool
        ensures { result ≡ (eqb self.bottom 1 || overlap (set_of self.wanted) (set_of self.excluded)) }
    {
        self.bottom == 1 || self.wanted.overlaps(self.excluded)
    }

    // No names.
    pub fn is_bare(self) -> bool
        ensures { result ≡ (eqb (set_of self.wanted) none && eqb (set_of self.excluded) none) }
    {
        self.wanted.is_none() && self.excluded.is_none()
    }
}

// The mark of row j, or else a label's.
fn bottom_with(s: &[u8], rows: usize, bottom: u64, j: usize) -> u64
    requires { (Checked s.now rows) × (j < rows) }
    ensures { eqb result 1 ≡ (eqb (impossible_of s.now j) 1 || eqb bottom 1) }
{
    if impossible(s, j) == 1 {
        return 1;
    }
    bottom
}

// The label with that of row j.
pub fn join(s: &[u8], rows: usize, label: Label, j: usize) -> Label
    requires { (Checked s.now rows) × (j < rows) }
    ensures { Joined s.now j label result }
{
    Label {
        wanted: wanted(s, j).union(label.wanted),
        excluded: excluded(s, j).union(label.excluded),
        bottom: bottom_with(s, rows, label.bottom, j),
    }
}
