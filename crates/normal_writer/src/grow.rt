// Merged rows, made depth first: each is counted, written into the lent part, and left once what hangs from it is
// there.
ghost use Rattle.std.specs.Prelude.{◌≡◌, Bool, false, ℕ, ◌≤◌, ◌<◌, length};
ghost use Rattle.table.specs.Bounds.{Bounded};
ghost use Rattle.table.specs.Layout.{«place», roles};
ghost use Rattle.ale.specs.Tree.{cons, nil};
ghost use Rattle.meaning.specs.File.{code_at};
ghost use Rattle.meaning.specs.Meaning.{kind_at};
ghost use Rattle.row_sets.specs.Rows.{Checked, Known, holds, of_role};
ghost use Rattle.row_sets.specs.Labels.{OfSome, Valued};
ghost use Rattle.row_sets.specs.Parts.{exists_part_at, merged_at, parts_at, successors_at, value_part_at};
ghost use Rattle.normal_writer.specs.Built.{Built};
ghost use Rattle.normal_writer.specs.Grown.{Grown, Room};

use crate::node::{Branch, Edge, enter, graft_leaf, leave};
use row_sets::linked::Table;
use row_sets::rows::{LINKS, MASKS, RowSet, Successors};
use row_sets::survey::Survey;
use row_sets::values::{Values, gather};
use table::layout::{KIND_EXISTS, KIND_FOR_ALL, KIND_ROOT, Limits};
use table_rows::builder::Builder;

// One successor more: the merged row of a set, with what hangs from it down to a depth.
#[cycle(graft)]
fn graft<'a>(
    survey: &'a Survey<'a>,
    limit: usize,
    values: Values,
    depth: usize,
    out: &mut [u8],
    branch: Branch,
    edge: Edge,
) -> Branch
    requires valued { OfSome survey.now.table.bytes.now survey.now.table.rows values }
    requires room { Room limit branch out.old }
    requires coded { code_at branch.table.rows (kind_at edge.kind) ≡ edge.kind }
    ensures { (q : ℕ → Bool) → Valued survey.now.table.bytes.now survey.now.table.rows q values →
        Grown limit edge.parent branch out.old
        (cons (kind_at edge.kind) edge.role (merged_at survey.now.table.bytes.now survey.now.table.rows depth q) nil)
        result out.new }
{
    if limit <= branch.merged {
        return Branch {
            merged: limit + 1,
            ..branch
        };
    }
    let entered = enter(out, branch, edge, values.label);
    let parent = branch.table.rows;
    let below = graft_roles(
        survey,
        limit,
        values.successors,
        depth,
        out,
        entered,
        parent,
    );
    leave(out, branch, edge, values.label, below)
}

// The same, without a walk along the roles where nothing hangs.
#[cycle(graft)]
fn graft_row<'a>(
    survey: &'a Survey<'a>,
    limit: usize,
    values: Values,
    depth: usize,
    out: &mut [u8],
    branch: Branch,
    edge: Edge,
) -> Branch
    requires valued { OfSome survey.now.table.bytes.now survey.now.table.rows values }
    requires room { Room limit branch out.old }
    requires coded { code_at branch.table.rows (kind_at edge.kind) ≡ edge.kind }
    ensures { (q : ℕ → Bool) → Valued survey.now.table.bytes.now survey.now.table.rows q values →
        Grown limit edge.parent branch out.old
        (cons (kind_at edge.kind) edge.role (merged_at survey.now.table.bytes.now survey.now.table.rows depth q) nil)
        result out.new }
{
    if values.successors.roles == 0 {
        graft_leaf(limit, out, branch, edge, values.label)
    } else {
        graft(survey, limit, values, depth, out, branch, edge)
    }
}

// The successors of the merged row of a set, role by role.
#[cycle(graft)]
fn graft_roles<'a>(
    survey: &'a Survey<'a>,
    limit: usize,
    successors: Successors,
    depth: usize,
    out: &mut [u8],
    branch: Branch,
    parent: usize,
) -> Branch
    requires known { Known survey.now.table.bytes.now survey.now.table.rows successors }
    requires room { Room limit branch out.old }
    requires some { 0 < branch.table.rows }
    ensures { Grown limit parent branch out.old
        (successors_at survey.now.table.bytes.now survey.now.table.rows depth (holds successors.set)) result out.new }
{
    if depth == 0 {
        return branch;
    }
    let mut grown = branch;
    for role in successors.distinct_roles() {
        grown = graft_role(
            survey,
            limit,
            successors.set,
            depth - 1,
            out,
            grown,
            parent,
            role,
        );
        if limit < grown.merged {
            return grown;
        }
    }
    grown
}

// Those of one role: one for A, if A is not empty, and then one for each some-successor with A.
#[cycle(graft)]
fn graft_role<'a>(
    survey: &'a Survey<'a>,
    limit: usize,
    set: RowSet,
    depth: usize,
    out: &mut [u8],
    branch: Branch,
    parent: usize,
    role: u8,
) -> Branch
    requires role_below { role < roles }
    requires rootless { holds set 0 ≡ false }
    requires room { Room limit branch out.old }
    requires some { 0 < branch.table.rows }
    ensures { Grown limit parent branch out.old
        (parts_at survey.now.table.bytes.now survey.now.table.rows depth role
        (of_role survey.now.table.bytes.now role (holds set))) result out.new }
{
    let all = set.of_edge(survey.masks, KIND_FOR_ALL, role);
    let some = set.of_edge(survey.masks, KIND_EXISTS, role);
    let values = gather(&survey.table, all);
    let grown = graft_value(survey, limit, values, depth, out, branch, parent, role);
    graft_exists(survey, limit, some, values, depth, out, grown, parent, role)
}

// The one for A, of which the values are.
#[cycle(graft)]
fn graft_value<'a>(
    survey: &'a Survey<'a>,
    limit: usize,
    values: Values,
    depth: usize,
    out: &mut [u8],
    branch: Branch,
    parent: usize,
    role: u8,
) -> Branch
    requires valued { OfSome survey.now.table.bytes.now survey.now.table.rows values }
    requires room { Room limit branch out.old }
    requires some { 0 < branch.table.rows }
    ensures { (q : ℕ → Bool) → Valued survey.now.table.bytes.now survey.now.table.rows q values →
        Grown limit parent branch out.old
        (value_part_at survey.now.table.bytes.now survey.now.table.rows depth role q values.first) result out.new }
{
    if survey.table.rows <= values.first {
        return branch;
    }
    let edge = Edge {
        parent,
        kind: KIND_FOR_ALL,
        role,
    };
    graft_row(survey, limit, values, depth, out, branch, edge)
}

// The one for each some-successor.
#[cycle(graft)]
fn graft_exists<'a>(
    survey: &'a Survey<'a>,
    limit: usize,
    some: RowSet,
    values: Values,
    depth: usize,
    out: &mut [u8],
    branch: Branch,
    parent: usize,
    role: u8,
) -> Branch
    requires valued { OfSome survey.now.table.bytes.now survey.now.table.rows values }
    requires room { Room limit branch out.old }
    requires some { 0 < branch.table.rows }
    ensures { (q : ℕ → Bool) → Valued survey.now.table.bytes.now survey.now.table.rows q values →
        Grown limit parent branch out.old
        (exists_part_at survey.now.table.bytes.now survey.now.table.rows depth role (holds some) q
        survey.now.table.rows) result out.new }
{
    let edge = Edge {
        parent,
        kind: KIND_EXISTS,
        role,
    };
    let mut grown = branch;
    for j in some.members(survey.table.rows) {
        let whole = values.add(&survey.table, j);
        grown = graft_row(survey, limit, whole, depth, out, grown, edge);
        if limit < grown.merged {
            return grown;
        }
    }
    grown
}

// Builds the normal table of a picture in a lent part, from its first byte on.
pub fn build(s: &[u8], rows: usize, limits: Limits, out: &mut [u8]) -> Branch
    requires { (Checked s.now rows) × ((Bounded limits) × («place» limits.rows 0 ≤ length out.old)) }
    ensures { Built limits s.now out.old result out.new }
{
    let mut links = [0u8; LINKS];
    let mut masks = [0u64; MASKS];
    let survey = Survey::new(Table::new(s, rows, &mut links), &mut masks);
    let branch = Branch {
        table: Builder::new(),
        merged: 0,
        bottom: false,
    };
    let edge = Edge {
        parent: 0,
        kind: KIND_ROOT,
        role: 0,
    };
    let root = Values::none(rows).add(&survey.table, 0);
    graft(&survey, limits.rows, root, limits.depth, out, branch, edge)
}
