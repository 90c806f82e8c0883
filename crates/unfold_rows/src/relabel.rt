// The label of a row, before anything is taken in and after.
ghost use Rattle.std.specs.Prelude.{◌≡◌};
ghost use Rattle.table.specs.Layout.{«place»};
ghost use Rattle.table.specs.NameValues.{set_of};
ghost use Rattle.table.specs.Put.{put};
ghost use Rattle.table_rows.specs.Rows.{HasRow};
ghost use Rattle.unfold_rows.specs.Labels.{LabelRead, relabelled};

use crate::take::Taking;
use table::names::Names;
use table::row::Row;
use table_rows::builder::Builder;
use table_rows::row::{excluded, impossible, kind, parent, role, wanted};

// The label of a row.
pub fn label_of(s: &[u8], k: usize) -> Taking
    requires { HasRow s.now k }
    ensures { LabelRead s.now k result }
{
    Taking {
        wanted: wanted(s, k),
        excluded: excluded(s, k),
        impossible: impossible(s, k),
        taken: Names::none(),
    }
}

// Writes the label of row i, without the defined names.
pub fn relabel(out: &mut [u8], i: usize, s: Taking, defined: Names)
    requires { HasRow out.old i }
    ensures { out.new
        ≡ put out.old («place» i 0) (relabelled out.old i s (set_of defined)) }
{
    let all = s.wanted;
    let others = s.excluded;
    let row = Row {
        parent: parent(out, i),
        kind: kind(out, i),
        role: role(out, i),
        impossible: s.impossible,
        wanted: all.intersection(defined.complement()),
        excluded: others,
    };
    let here = Builder { rows: i };
    here.push(out, row);
}
