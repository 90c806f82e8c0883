// The product of two normal tables, made depth first: a pair of rows is one row of the common picture, and from it hang
// the pairs of their successors by the same kind and role. Both tables have their successors in the order of the
// product's, so one pass along both finds the pairs.
ghost use Rattle.std.specs.Prelude.{◌≡◌, ℕ, ◌≤◌, ◌<◌, length};
ghost use Rattle.table.specs.Bounds.{Bounded};
ghost use Rattle.table.specs.Fields.{kind_of, role_of};
ghost use Rattle.table.specs.Layout.{«place»};
ghost use Rattle.ale.specs.Forest.{cons_reduced};
ghost use Rattle.ale.specs.PictureSignature.{picture_signature};
ghost use Rattle.ale.specs.Tree.{nil};
ghost use Rattle.meaning.specs.File.{code_at};
ghost use Rattle.meaning.specs.Meaning.{kind_at};
ghost use Rattle.row_sets.specs.Rows.{Checked};
ghost use Rattle.homomorphism_search.specs.Search.{tree_at};
ghost use Rattle.product_rows.specs.Grown.{Built, Grown, Room};
ghost use Rattle.product_rows.specs.Siblings.{Kept, Trim, key_at};
ghost use Rattle.product_writer.specs.Tables.{Hung, Paired, Trims, pairs_below, pairs_from, product_at};

use homomorphism_search::label::label_at;
use normal_writer::node::Edge;
use product_rows::copy::copy_tree;
use product_rows::edge::{edge_at, edge_key, seek};
use product_rows::node::{beyond, common_label, enter, graft_leaf, is_kept, is_pair_leaf, leave};
use row_sets::below::Below;
use row_sets::linked::Table;
use row_sets::rows::LINKS;
use table::layout::{KIND_ROOT, Limits};
use table_rows::builder::Builder;

// The pair of rows u and w, and what hangs from it.
#[cycle(graft)]
fn graft<'a>(
    first: &'a Table<'a>,
    u: usize,
    second: &'a Table<'a>,
    w: usize,
    depth: usize,
    limit: usize,
    out: &mut [u8],
    table: Builder,
    edge: &Edge,
) -> Builder
    requires rows { (u < first.now.rows) × (w < second.now.rows) }
    requires kept { (Kept (kind_at edge.now.kind) (tree_at first.now.bytes.now depth u))
        × (Kept (kind_at edge.now.kind) (tree_at second.now.bytes.now depth w)) }
    requires room { Room limit table out.old }
    requires code { code_at table.rows (kind_at edge.now.kind) ≡ edge.now.kind }
    ensures { Grown limit edge.now.parent table out.old
        (cons_reduced picture_signature (kind_at edge.now.kind) edge.now.role
        (product_at first.now.bytes.now second.now.bytes.now depth u w) nil)
        result out.new }
{
    let a = label_at(first.bytes, u);
    let b = label_at(second.bytes, w);
    if a.bottom == 1 {
        return copy_tree(second, w, depth, limit, out, table, edge);
    }
    if b.bottom == 1 {
        return copy_tree(first, u, depth, limit, out, table, edge);
    }
    let label = common_label(a, b);
    if limit <= table.rows && is_kept(edge, label) {
        return beyond(limit);
    }
    let entered = enter(out, table, edge, label, limit);
    let below = graft_pairs(first, u, second, w, depth, limit, out, entered, table.rows);
    leave(table, edge, label, below, limit)
}

// Rows c and v by row c's edge, hung from row `parent` of the new table: without a walk where there can be no pair of
// their successors.
#[cycle(graft)]
fn graft_pair<'a>(
    first: &'a Table<'a>,
    c: usize,
    second: &'a Table<'a>,
    v: usize,
    depth: usize,
    limit: usize,
    out: &mut [u8],
    table: Builder,
    parent: usize,
) -> Builder
    requires rows { (Hung first.now.rows c) × (v < second.now.rows) }
    requires kept { (Kept (kind_at (kind_of first.now.bytes.now c)) (tree_at first.now.bytes.now depth c))
        × (Kept (kind_at (kind_of first.now.bytes.now c)) (tree_at second.now.bytes.now depth v)) }
    requires room { Room limit table out.old }
    requires some { 0 < table.rows }
    ensures { Grown limit parent table out.old
        (cons_reduced picture_signature (kind_at (kind_of first.now.bytes.now c)) (role_of first.now.bytes.now c)
        (product_at first.now.bytes.now second.now.bytes.now depth c v) nil)
        result out.new }
{
    if is_pair_leaf(first, c, second, v) {
        let leaf = edge_at(first.bytes, c, parent);
        let label = common_label(label_at(first.bytes, c), label_at(second.bytes, v));
        return graft_leaf(out, table, &leaf, label, limit);
    }
    let edge = edge_at(first.bytes, c, parent);
    graft(first, c, second, v, depth, limit, out, table, &edge)
}

// The pairs of successors of rows u and w, hung from row `parent` of the new table.
#[cycle(graft)]
fn graft_pairs<'a>(
    first: &'a Table<'a>,
    u: usize,
    second: &'a Table<'a>,
    w: usize,
    depth: usize,
    limit: usize,
    out: &mut [u8],
    table: Builder,
    parent: usize,
) -> Builder
    requires rows { (u < first.now.rows) × (w < second.now.rows) }
    requires trim { (Trim (tree_at first.now.bytes.now depth u)) × (Trim (tree_at second.now.bytes.now depth w)) }
    requires room { Room limit table out.old }
    requires some { 0 < table.rows }
    ensures { Grown limit parent table out.old (pairs_below first.now.bytes.now second.now.bytes.now depth u w)
        result out.new }
{
    if depth == 0 {
        return table;
    }
    let mut grown = table;
    let mut rest = second.below(w);
    for c in first.below(u) {
        let key = edge_key(first.bytes, c);
        rest = seek(rest, key);
        if rest.next == 0 {
            return grown;
        }
        grown = graft_each(first, c, key, rest, depth - 1, limit, out, grown, parent);
        if limit < grown.rows {
            return grown;
        }
    }
    grown
}

// Row c with those rows of a walk along the second that hang by the same kind and role: they come first.
#[cycle(graft)]
fn graft_each<'a>(
    first: &'a Table<'a>,
    c: usize,
    key: usize,
    rest: Below<'a>,
    depth: usize,
    limit: usize,
    out: &mut [u8],
    table: Builder,
    parent: usize,
) -> Builder
    requires hung { Hung first.now.rows c }
    requires key { key ≡ key_at first.now.bytes.now c }
    requires paired { Paired first.now.bytes.now rest.table.now.bytes.now rest.table.now.rows depth c rest.next }
    requires room { Room limit table out.old }
    requires some { 0 < table.rows }
    ensures { Grown limit parent table out.old
        (pairs_from first.now.bytes.now rest.entry.table.now.bytes.now rest.entry.table.now.rows depth c
        rest.entry.next)
        result out.new }
{
    let second = rest.table;
    let bytes = second.bytes;
    let mut grown = table;
    for v in rest {
        if edge_key(bytes, v) != key {
            return grown;
        }
        grown = graft_pair(first, c, second, v, depth, limit, out, grown, parent);
        if limit < grown.rows {
            return grown;
        }
    }
    grown
}

// Builds the product of two normal tables in a scratch table, from its first byte on.
pub fn build(
    first: &[u8],
    n: usize,
    second: &[u8],
    m: usize,
    limits: Limits,
    scratch: &mut [u8],
) -> Builder
    requires { (Checked first.now n) × ((Checked second.now m) × ((Trims first.now second.now limits.depth)
        × ((Bounded limits) × («place» limits.rows 0 ≤ length scratch.old)))) }
    ensures { Built limits (product_at first.now second.now limits.depth 0 0) scratch.old result scratch.new }
{
    let mut links = [0u8; LINKS];
    let left = Table::new(first, n, &mut links);
    let mut others = [0u8; LINKS];
    let right = Table::new(second, m, &mut others);
    let root = Edge {
        parent: 0,
        kind: KIND_ROOT,
        role: 0,
    };
    graft(
        &left,
        0,
        &right,
        0,
        limits.depth,
        limits.rows,
        scratch,
        Builder::new(),
        &root,
    )
}
