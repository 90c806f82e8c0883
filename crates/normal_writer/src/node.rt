// A merged row as it is written and left. A table under construction is a value, so a row that is inconsistent or
// dropped is given up by going on from the earlier value.
ghost use Rattle.std.specs.Prelude.{◌≡◌, ◌||◌, false, not, ◌+◌, ◌≤◌, ◌<◌, eqb, length};
ghost use Rattle.table.specs.Bounds.{max_rows};
ghost use Rattle.table.specs.Layout.{kind_for_all, «place», row_size};
ghost use Rattle.ale.specs.PictureSignature.{picture_signature};
ghost use Rattle.ale.specs.Tree as tree;
ghost use Rattle.ale.specs.Tree.{cons, nil, node};
ghost use Rattle.meaning.specs.File.{code_at};
ghost use Rattle.meaning.specs.Meaning.{kind_at};
ghost use Rattle.row_sets.specs.Labels.{LabelIs};
ghost use Rattle.normal_writer.specs.Grown.{Entered, Grown, Left, Room, is_inconsistent, is_dropped};

use row_sets::label::Label;
use table::layout::KIND_FOR_ALL;
use table::names::Names;
use table::row::Row;
use table_rows::builder::Builder;

// Successors written so far: the table with them, the merged rows counted, and whether a some-successor is ⊥.
#[derive(Clone, Copy)]
pub struct Branch {
    pub table: Builder,
    pub merged: usize,
    pub bottom: bool,
}

// The edge by which a row hangs.
#[derive(Clone, Copy)]
pub struct Edge {
    pub parent: usize,
    pub kind: u8,
    pub role: u8,
}

// Writes a row after those that are there; its mark is set only when it is left.
pub fn enter(out: &mut [u8], branch: Branch, edge: Edge, label: Label) -> Branch
    requires few { branch.table.rows < max_rows }
    requires space { «place» branch.table.rows row_size ≤ length out.old }
    requires counted { branch.merged < max_rows }
    ensures { Entered branch out.old edge label result out.new }
{
    let row = Row {
        parent: edge.parent,
        kind: edge.kind,
        role: edge.role,
        impossible: 0,
        wanted: label.wanted,
        excluded: label.excluded,
    };
    Branch {
        table: branch.table.push(out, row),
        merged: branch.merged + 1,
        bottom: false,
    }
}

fn is_inconsistent(label: Label, below: Branch) -> bool
    ensures { result ≡ is_inconsistent label below }
{
    label.clashes() || below.bottom
}

fn is_dropped(branch: Branch, edge: Edge, label: Label, below: Branch) -> bool
    requires { branch.table.rows < max_rows }
    ensures { result ≡ is_dropped branch edge label below }
{
    edge.kind == KIND_FOR_ALL && label.is_bare() && below.table.rows == branch.table.rows + 1
}

// Whether a some-successor is ⊥ once this row is inconsistent.
fn spoils(branch: Branch, edge: Edge) -> bool
    ensures { result ≡ (branch.bottom || not (eqb edge.kind kind_for_all)) }
{
    branch.bottom || edge.kind != KIND_FOR_ALL
}

// The row as it is left: inconsistent, dropped, or with what hangs from it.
pub fn leave(out: &mut [u8], branch: Branch, edge: Edge, label: Label, below: Branch) -> Branch
    requires few { branch.table.rows < max_rows }
    requires space { «place» branch.table.rows row_size ≤ length out.old }
    ensures { Left branch edge label below out.old result out.new }
{
    if is_inconsistent(label, below) {
        let row = Row {
            parent: edge.parent,
            kind: edge.kind,
            role: edge.role,
            impossible: 1,
            wanted: Names::none(),
            excluded: Names::none(),
        };
        return Branch {
            table: branch.table.push(out, row),
            merged: below.merged,
            bottom: spoils(branch, edge),
        };
    }
    if is_dropped(branch, edge, label, below) {
        return Branch {
            merged: below.merged,
            ..branch
        };
    }
    Branch {
        bottom: branch.bottom,
        ..below
    }
}

// One successor more, from which nothing hangs.
pub fn graft_leaf(limit: usize, out: &mut [u8], branch: Branch, edge: Edge, label: Label) -> Branch
    requires room { Room limit branch out.old }
    requires coded { code_at branch.table.rows (kind_at edge.kind) ≡ edge.kind }
    ensures { (l : tree.Label picture_signature) → LabelIs label l →
        Grown limit edge.parent branch out.old (cons (kind_at edge.kind) edge.role (node l nil) nil) result out.new }
{
    if limit <= branch.merged {
        return Branch {
            merged: limit + 1,
            ..branch
        };
    }
    let entered = enter(out, branch, edge, label);
    leave(out, branch, edge, label, entered)
}
