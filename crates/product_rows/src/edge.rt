// The rows that hang from a row stand in the order of their edges: by role, all before some.
ghost use Rattle.std.specs.Prelude.{◌≡◌, ℕ, ◌<◌};
ghost use Rattle.table_rows.specs.Rows.{HasRow};
ghost use Rattle.product_rows.specs.Siblings.{drop_lower, edge_of, key_at, siblings};

use normal_writer::node::Edge;
use row_sets::below::Below;
use table::layout::KIND_FOR_ALL;
use table_rows::row::{kind, role};

// The place of a row's edge in that order.
#[tactic(auto, unfolding(crate::specs::Siblings::key_at))]
pub fn edge_key(t: &[u8], e: usize) -> usize
    requires { HasRow t.now e }
    ensures { result ≡ key_at t.now e }
{
    let by = 2 * usize::from(role(t, e));
    if kind(t, e) == KIND_FOR_ALL {
        return by;
    }
    by + 1
}

// The edge of a row, as it hangs from a row of another table.
pub fn edge_at(t: &[u8], e: usize, parent: usize) -> Edge
    requires { HasRow t.now e }
    ensures { result ≡ edge_of t.now e parent }
{
    Edge {
        parent,
        kind: kind(t, e),
        role: role(t, e),
    }
}

// The walk from its first row on whose edge does not stand before a place; at its end if there is none.
pub fn seek<'a>(walk: Below<'a>, key: usize) -> Below<'a>
    ensures table { result.table ≡ walk.entry.table }
    ensures rest { siblings walk.entry.table.now.bytes.now walk.entry.table.now.rows result.next
        ≡ drop_lower walk.entry.table.now.bytes.now key
        (siblings walk.entry.table.now.bytes.now walk.entry.table.now.rows walk.entry.next) }
{
    let bytes = walk.table.bytes;
    for e in walk {
        if key <= edge_key(bytes, e) {
            return walk.from(e);
        }
    }
    walk.from(0)
}
