// A row of a table with what hangs from it, as it stands there, after the rows of another: what a pair with a marked
// side comes to.
ghost use Rattle.std.specs.Prelude.{◌≡◌, ℕ, ◌<◌};
ghost use Rattle.ale.specs.PictureSignature.{picture_signature};
ghost use Rattle.ale.specs.Tree.{cons, nil, successors_of};
ghost use Rattle.meaning.specs.File.{code_at};
ghost use Rattle.meaning.specs.Meaning.{kind_at};
ghost use Rattle.homomorphism_search.specs.Search.{tree_at};
ghost use Rattle.product_rows.specs.Grown.{Grown, Room};

use crate::edge::edge_at;
use crate::node::{beyond, push_row};
use homomorphism_search::label::label_at;
use normal_writer::node::Edge;
use row_sets::linked::Table;
use table_rows::builder::Builder;

// Row v, and what hangs from it.
#[cycle(copy)]
pub fn copy_tree<'a>(
    t: &'a Table<'a>,
    v: usize,
    depth: usize,
    limit: usize,
    out: &mut [u8],
    table: Builder,
    edge: &Edge,
) -> Builder
    requires row { v < t.now.rows }
    requires room { Room limit table out.old }
    requires code { code_at table.rows (kind_at edge.now.kind) ≡ edge.now.kind }
    ensures { Grown limit edge.now.parent table out.old
        (cons (kind_at edge.now.kind) edge.now.role (tree_at t.now.bytes.now depth v) nil) result out.new }
{
    if limit <= table.rows {
        return beyond(limit);
    }
    let entered = push_row(out, table, edge, label_at(t.bytes, v), limit);
    copy_below(t, v, depth, limit, out, entered, table.rows)
}

// What hangs from row v, hung from row `parent` of the new table.
#[cycle(copy)]
fn copy_below<'a>(
    t: &'a Table<'a>,
    v: usize,
    depth: usize,
    limit: usize,
    out: &mut [u8],
    table: Builder,
    parent: usize,
) -> Builder
    requires row { v < t.now.rows }
    requires room { Room limit table out.old }
    requires some { 0 < table.rows }
    ensures { Grown limit parent table out.old (successors_of picture_signature (tree_at t.now.bytes.now depth v))
        result out.new }
{
    if depth == 0 {
        return table;
    }
    let mut grown = table;
    for c in t.below(v) {
        let edge = edge_at(t.bytes, c, parent);
        grown = copy_tree(t, c, depth - 1, limit, out, grown, &edge);
        if limit < grown.rows {
            return grown;
        }
    }
    grown
}
