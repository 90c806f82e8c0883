// The label of a row, and whether another row's label carries it.
ghost use Rattle.std.specs.Prelude.{List, ◌≡◌, ℕ};
ghost use Rattle.table_rows.specs.Rows.{HasRow};
ghost use Rattle.homomorphism_search.specs.Search.{RowLabel, label_carried};

use row_sets::label::Label;
use table_rows::row::{excluded, impossible, wanted};

// The label of row w.
pub fn label_at(t: &[u8], w: usize) -> Label
    requires { HasRow t.now w }
    ensures { RowLabel t.now w result }
{
    let bottom = impossible(t, w) as u64;
    Label {
        wanted: wanted(t, w),
        excluded: excluded(t, w),
        bottom,
    }
}

// Whether a label is not marked and its names are among those of row u.
pub fn label_within(label: Label, s: &[u8], u: usize) -> bool
    requires { HasRow s.now u }
    ensures { (t : List ℕ) (w : ℕ) → RowLabel t w label → result ≡ label_carried s.now t w u }
{
    if label.bottom == 1 {
        return false;
    }
    let has = wanted(s, u);
    let lacks = excluded(s, u);
    let wants = label.wanted;
    let excludes = label.excluded;
    wants.subset(has) && excludes.subset(lacks)
}
