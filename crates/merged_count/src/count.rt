// The merged rows of a picture, counted in the order in which the writer makes them, up to the limit and one more. What
// hangs from each set of file rows is enough for that, so there are no labels here.
ghost use Rattle.std.specs.Prelude.{◌≡◌, ◌+◌, ◌<◌, ◌≤◌, false, suc};
ghost use Rattle.table.specs.Bounds.{Bounded, max_rows};
ghost use Rattle.table.specs.Layout.{roles};
ghost use Rattle.meaning.specs.NormalTable.{merged_count};
ghost use Rattle.row_sets.specs.Rows.{Checked, Found, Known, holds};
ghost use Rattle.row_sets.specs.Parts.{capped, successors_at};
ghost use Rattle.merged_count.specs.Count.{Beside, Counts, ExistsCounted, HungFrom, beside_size, role_at, tree_size};

use row_sets::linked::Table;
use row_sets::rows::{LINKS, MASKS, RowSet, Successors};
use row_sets::survey::Survey;
use table::layout::{KIND_EXISTS, KIND_FOR_ALL, Limits};

// Of one role: the some-successors, what hangs from A, and the merged rows of a set from which the same hangs.
#[derive(Clone, Copy)]
struct RoleParts {
    some: RowSet,
    below: Successors,
    each: usize,
}

// The rows that hang from those of a set, and a row of the set; the number of rows if there is none.
fn hung<'a>(table: &'a Table<'a>, set: RowSet) -> (Successors, usize)
    ensures successors { HungFrom table.now.bytes.now table.now.rows (holds set) result.0 }
    ensures first { Found (holds set) table.now.rows result.1 }
{
    let mut successors = Successors::none();
    let mut first = table.rows;
    for j in set.members(table.rows) {
        successors = successors.add(table, j);
        first = j;
    }
    (successors, first)
}

// One merged row more, of a set from which these hang, and what hangs from it down to a depth.
#[cycle(count)]
fn count_row<'a>(
    survey: &'a Survey<'a>,
    limit: usize,
    successors: Successors,
    depth: usize,
    merged: usize,
) -> usize
    requires low { limit ≤ max_rows }
    requires counted { merged ≤ suc limit }
    requires known { Known survey.now.table.bytes.now survey.now.table.rows successors }
    ensures { result ≡ capped limit
        (merged + tree_size survey.now.table.bytes.now survey.now.table.rows depth (holds successors.set)) }
{
    if limit <= merged {
        return limit + 1;
    }
    let counted = merged + 1;
    if successors.roles == 0 {
        return counted;
    }
    count_successors(survey, limit, successors, depth, counted)
}

// The successors of the merged row of a set, role by role.
#[cycle(count)]
fn count_successors<'a>(
    survey: &'a Survey<'a>,
    limit: usize,
    successors: Successors,
    depth: usize,
    merged: usize,
) -> usize
    requires low { limit ≤ max_rows }
    requires counted { merged ≤ suc limit }
    requires known { Known survey.now.table.bytes.now survey.now.table.rows successors }
    ensures { Counts limit merged
        (successors_at survey.now.table.bytes.now survey.now.table.rows depth (holds successors.set)) result }
{
    if depth == 0 {
        return merged;
    }
    let mut counted = merged;
    for role in successors.distinct_roles() {
        counted = count_role(survey, limit, successors.set, depth - 1, counted, role);
        if limit < counted {
            return counted;
        }
    }
    counted
}

// Those of one role: one for A, if A is not empty, and then one for each some-successor with A. The recursion comes back
// here: so the others are compiled into their callers, and a row from which nothing hangs costs no call.
#[cycle(count)]
#[inline(never)]
fn count_role<'a>(
    survey: &'a Survey<'a>,
    limit: usize,
    set: RowSet,
    depth: usize,
    merged: usize,
    role: u8,
) -> usize
    requires low { limit ≤ max_rows }
    requires counted { merged ≤ suc limit }
    requires role_below { role < roles }
    requires rootless { holds set 0 ≡ false }
    ensures { Counts limit merged
        (role_at survey.now.table.bytes.now survey.now.table.rows depth role (holds set)) result }
{
    let all = set.of_edge(survey.masks, KIND_FOR_ALL, role);
    let some = set.of_edge(survey.masks, KIND_EXISTS, role);
    let rows = survey.table.rows;
    let (below, first) = hung(&survey.table, all);
    let whole = count_row(survey, limit, below, depth, merged);
    let parts = RoleParts {
        some,
        below,
        each: whole - merged,
    };
    let counted = if first < rows { whole } else { merged };
    count_exists(survey, limit, parts, depth, counted)
}

// The some-successors of one role, each with A.
#[cycle(count)]
fn count_exists<'a>(
    survey: &'a Survey<'a>,
    limit: usize,
    parts: RoleParts,
    depth: usize,
    merged: usize,
) -> usize
    requires low { limit ≤ max_rows }
    requires counted { merged ≤ suc limit }
    requires beside { Beside survey.now.table.bytes.now survey.now.table.rows depth limit merged parts }
    ensures { ExistsCounted survey.now.table.bytes.now survey.now.table.rows depth parts limit merged
        survey.now.table.rows result }
{
    let mut counted = merged;
    for j in parts.some.members(survey.table.rows) {
        counted = count_beside(survey, limit, parts, depth, counted, j);
        if limit < counted {
            return counted;
        }
    }
    counted
}

// The merged row of row c with A. If nothing hangs from row c, the same hangs from both as from A.
#[cycle(count)]
fn count_beside<'a>(
    survey: &'a Survey<'a>,
    limit: usize,
    parts: RoleParts,
    depth: usize,
    merged: usize,
    c: usize,
) -> usize
    requires low { limit ≤ max_rows }
    requires counted { merged ≤ suc limit }
    requires beside { Beside survey.now.table.bytes.now survey.now.table.rows depth limit merged parts }
    requires inside { c < survey.now.table.rows }
    ensures { result ≡ capped limit
        (merged + beside_size survey.now.table.bytes.now survey.now.table.rows depth c parts.below) }
{
    let table = &survey.table;
    if table.links[c] != 0 {
        let whole = parts.below.add(table, c);
        return count_row(survey, limit, whole, depth, merged);
    }
    let counted = merged + parts.each;
    if limit < counted { limit + 1 } else { counted }
}

// How many merged rows a picture has, up to the limit and one more.
pub fn count(s: &[u8], rows: usize, limits: Limits) -> usize
    requires { (Checked s.now rows) × (Bounded limits) }
    ensures { result ≡ capped limits.rows (merged_count limits s.now) }
{
    let mut links = [0u8; LINKS];
    let mut masks = [0u64; MASKS];
    let survey = Survey::new(Table::new(s, rows, &mut links), &mut masks);
    let root = Successors::none().add(&survey.table, 0);
    count_row(&survey, limits.rows, root, limits.depth, 0)
}
