// A row of the common picture as it is written and left. A table under construction is a value, so a row that is
// dropped is given up by going on from the earlier value. An all-successor that has no names may be dropped once it is
// known that nothing hangs from it; where the table is full it is therefore not written, and nothing may hang from it.
ghost use Rattle.std.specs.Prelude.{◌≡◌, ◌&&◌, ◌||◌, false, not, ℕ, ◌+◌, ◌≤◌, ◌<◌, eqb, get_or};
ghost use Rattle.table.specs.Bounds.{max_rows};
ghost use Rattle.table.specs.Fields.{impossible_of};
ghost use Rattle.table.specs.NameSet.{intersection};
ghost use Rattle.table.specs.NameValues.{set_of};
ghost use Rattle.table.specs.Pick.{pick};
ghost use Rattle.ale.specs.Forest.{cons_reduced};
ghost use Rattle.ale.specs.PictureSignature.{picture_signature};
ghost use Rattle.ale.specs.Tree as tree;
ghost use Rattle.ale.specs.Tree.{nil, node};
ghost use Rattle.meaning.specs.File.{code_at, mark_code};
ghost use Rattle.meaning.specs.Meaning.{kind_at};
ghost use Rattle.row_sets.specs.Labels.{LabelIs};
ghost use Rattle.product_rows.specs.Grown.{Entered, Grown, Pushed, Room, is_dropped, stays};

use normal_writer::node::Edge;
use row_sets::label::Label;
use row_sets::linked::Table;
use table::layout::KIND_FOR_ALL;
use table::row::Row;
use table_rows::builder::Builder;
use table_rows::row::impossible;

// The names that two labels have in common.
pub fn common_label(a: Label, b: Label) -> Label
    ensures wanted { set_of result.wanted ≡ intersection (set_of a.wanted) (set_of b.wanted) }
    ensures excluded { set_of result.excluded ≡ intersection (set_of a.excluded) (set_of b.excluded) }
    ensures bottom { eqb result.bottom 1 ≡ false }
{
    let wanted = a.wanted;
    let excluded = a.excluded;
    Label {
        wanted: wanted.intersection(b.wanted),
        excluded: excluded.intersection(b.excluded),
        bottom: 0,
    }
}

// Whether neither of two labels is marked, and one of their rows has no first successor: then nothing hangs from the
// pair.
pub fn is_leaf(a: Label, b: Label, first: u8, second: u8) -> bool
    ensures { result ≡ (not (eqb a.bottom 1) && (not (eqb b.bottom 1) && (eqb first 0 || eqb second 0))) }
{
    if a.bottom == 1 {
        return false;
    }
    if b.bottom == 1 {
        return false;
    }
    first == 0 || second == 0
}

// The same of a row of each of two tables: of a pair that has successors no label is read.
pub fn is_pair_leaf(first: &Table, u: usize, second: &Table, w: usize) -> bool
    requires { (u < first.now.rows) × (w < second.now.rows) }
    ensures { result ≡ (not (eqb (impossible_of first.now.bytes.now u) 1)
        && (not (eqb (impossible_of second.now.bytes.now w) 1)
        && (eqb (get_or first.now.links.now u 0) 0 || eqb (get_or second.now.links.now w 0) 0))) }
{
    let ends = first.links[u] == 0 || second.links[w] == 0;
    ends && impossible(first.bytes, u) != 1 && impossible(second.bytes, w) != 1
}

// A count beyond the limit, where a row more would have to stand: none is written any more, and the answer is 15.
pub fn beyond(limit: usize) -> Builder
    requires { limit ≤ max_rows }
    ensures { result.rows ≡ limit + 1 }
{
    Builder { rows: limit + 1 }
}

// The impossible byte of a label.
fn mark(label: Label) -> u8
    ensures { result ≡ mark_code (eqb label.bottom 1) }
{
    if label.bottom == 1 {
        return 1;
    }
    0
}

// One row more, after those that are there.
pub fn push_row(out: &mut [u8], table: Builder, edge: &Edge, label: Label, limit: usize) -> Builder
    requires room { Room limit table out.old }
    requires fits { table.rows < limit }
    ensures { Pushed table out.old edge.now label result out.new }
{
    let wanted = label.wanted;
    let excluded = label.excluded;
    let row = Row {
        parent: edge.parent,
        kind: edge.kind,
        role: edge.role,
        impossible: mark(label),
        wanted,
        excluded,
    };
    table.push(out, row)
}

// Whether a row is kept whatever hangs from it: a some-successor, or one with names.
pub fn is_kept(edge: &Edge, label: Label) -> bool
    ensures { result ≡ stays edge.now label }
{
    if edge.kind != KIND_FOR_ALL {
        return true;
    }
    !label.is_bare()
}

// The table with the row, if there is room for one.
pub fn enter(out: &mut [u8], table: Builder, edge: &Edge, label: Label, limit: usize) -> Builder
    requires { Room limit table out.old }
    ensures { Entered limit table out.old edge.now label result out.new }
{
    if table.rows < limit {
        return push_row(out, table, edge, label, limit);
    }
    table
}

// The table once what hangs from the row is there: without the row, if it is dropped.
pub fn leave(table: Builder, edge: &Edge, label: Label, below: Builder, limit: usize) -> Builder
    requires within { table.rows ≤ limit }
    requires most { limit ≤ max_rows }
    ensures { result.rows ≡ pick (is_dropped limit table edge.now label below) table.rows below.rows }
{
    if below.rows == table.rows + 1 && table.rows < limit && !is_kept(edge, label) {
        return table;
    }
    below
}

// One successor more, from which nothing hangs.
pub fn graft_leaf(
    out: &mut [u8],
    table: Builder,
    edge: &Edge,
    label: Label,
    limit: usize,
) -> Builder
    requires room { Room limit table out.old }
    requires code { code_at table.rows (kind_at edge.now.kind) ≡ edge.now.kind }
    ensures { (l : tree.Label picture_signature) → LabelIs label l → l.bottom ≡ false →
        Grown limit edge.now.parent table out.old
        (cons_reduced picture_signature (kind_at edge.now.kind) edge.now.role (node l nil) nil) result out.new }
{
    if limit <= table.rows && is_kept(edge, label) {
        return beyond(limit);
    }
    let entered = enter(out, table, edge, label, limit);
    leave(table, edge, label, entered, limit)
}
