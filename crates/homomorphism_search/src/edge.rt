// The edge of a row, and whether another row hangs by the same.
ghost use Rattle.std.specs.Prelude.{List, ◌≡◌, ℕ};
ghost use Rattle.homomorphism_search.specs.Search.{EdgeIs, EdgeRow, same_edge};

use table_rows::row::{kind, role};

#[derive(Clone, Copy)]
pub struct RowEdge {
    pub kind: u8,
    pub role: u8,
}

// The edge of row c.
pub fn row_edge(t: &[u8], c: usize) -> RowEdge
    requires { EdgeRow t.now c }
    ensures { EdgeIs t.now c result }
{
    RowEdge {
        kind: kind(t, c),
        role: role(t, c),
    }
}

// Whether an edge is also that of row v.
pub fn hangs_by(edge: RowEdge, s: &[u8], v: usize) -> bool
    requires { EdgeRow s.now v }
    ensures { (t : List ℕ) (c : ℕ) → EdgeIs t c edge → result ≡ same_edge s.now t c v }
{
    kind(s, v) == edge.kind && role(s, v) == edge.role
}
