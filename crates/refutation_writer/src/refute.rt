// The refutation file: the countermodel of two tables of which the second does not map to the first. An individual that
// fits row u and not row w: a name tells them apart, or an edge of w that no edge of u serves is left unfitted, and all
// else is as in the canonical model. Which edge that is was found by the search and left in `missed`.
ghost use Rattle.std.specs.Prelude.{true, [], ◌∷◌, ◌≡◌, ◌<◌, length, MatchOption};
ghost use Rattle.table.specs.Fields.{kind_of, role_of};
ghost use Rattle.table_rows.specs.Rows.{HasRow};
ghost use Rattle.table.specs.Layout.{kind_exists, kind_for_all};
ghost use Rattle.table.specs.NameSet.{complement, intersection, union};
ghost use Rattle.table.specs.NameValues.{set_of};
ghost use Rattle.table.specs.Put.{put};
ghost use Rattle.homomorphism_search.specs.Search.{Missed, MissedBelow, label_carried, same_edge};
ghost use Rattle.refutation_writer.specs.Refuting.{against_top, against_tree, against_value, falsified_below};
ghost use Rattle.refutation_writer.specs.Refuting.{reached_all, reached_tree, realized_below, realized_rows};
ghost use Rattle.refutation_writer.specs.Refuting.{value_row, wanted_within};
ghost use Rattle.refutation_writer.specs.Searches.{first_of, second_of};
ghost use Rattle.countermodel.specs.Writing.{refutation_file};
ghost use Rattle.refutation_writer.specs.Writing.{RefutationRoom, Room, Written};

use crate::writer::{write_canonical, write_canonical_below, write_individual};
use refutation_reader::layout::individual_place;
use row_sets::linked::Table;
use table::layout::{END_SIZE, KIND_EXISTS, KIND_FOR_ALL, MAX_ROWS};
use table::names::Names;
use table_rows::row::{excluded, impossible, kind, role as row_role, wanted, write_end};

// A search that failed, and for each row of the first table the row of the second that no edge of it served.
#[derive(Clone, Copy)]
pub struct FailedSearch<'a> {
    pub first: &'a Table<'a>,
    pub second: &'a Table<'a>,
    pub missed: &'a [u8; MAX_ROWS],
}

// The all-successor of row u by a role.
fn value_row(first: &Table, u: usize, role: u8) -> Option<usize>
    requires { u < first.now.rows }
    ensures { MatchOption result (value_row first.now.bytes.now u role ≡ 0)
        (λ v. (value_row first.now.bytes.now u role ≡ v) × (v ≡ 0 → ⊥) × (v < first.now.rows)) }
{
    for v in first.below(u) {
        if kind(first.bytes, v) == KIND_FOR_ALL && row_role(first.bytes, v) == role {
            return Some(v);
        }
    }
    None
}

// Whether row w is not marked and its wanted names are among these.
fn wanted_within(second: &[u8], w: usize, has: Names) -> bool
    requires { HasRow second.now w }
    ensures { result ≡ wanted_within second.now w (set_of has) }
{
    if impossible(second, w) == 1 {
        return false;
    }
    let wants = wanted(second, w);
    wants.subset(has)
}

// The names that hold and those that another row excludes, less those that must not hold.
fn widened(has: Names, excludes: Names, lacks: Names) -> Names
    ensures { set_of result ≡ intersection (union (set_of has) (set_of excludes)) (complement (set_of lacks)) }
{
    let both = has.union(excludes);
    let allowed = lacks.complement();
    both.intersection(allowed)
}

// Individuals of which row w fails and nothing is asked.
fn write_against_top<'a>(
    second: &'a Table<'a>,
    w: usize,
    depth: usize,
    parent: usize,
    role: u8,
    out: &mut [u8],
    k: usize,
) -> usize
    requires inside { w < second.now.rows }
    requires room { Room out.old k (reached_tree (against_top second.now.bytes.now depth w) parent role k) }
    ensures { Written out.old k (reached_tree (against_top second.now.bytes.now depth w) parent role k) result out.new }
{
    let none = Names::none();
    if !wanted_within(second.bytes, w, none) {
        write_individual(out, k, parent, role, none);
        return k + 1;
    }
    let excludes = excluded(second.bytes, w);
    if !excludes.is_none() {
        write_individual(out, k, parent, role, excludes);
        return k + 1;
    }
    write_individual(out, k, parent, role, none);
    if depth == 0 {
        return k + 1;
    }
    let c = usize::from(second.links[w]);
    if c == 0 {
        return k + 1;
    }
    if kind(second.bytes, c) == KIND_EXISTS {
        return k + 1;
    }
    let by = row_role(second.bytes, c);
    write_against_top(second, c, depth - 1, k, by, out, k + 1)
}

// Individuals that fit row u and not row w; gives the number of the next.
#[cycle(against)]
fn write_against<'a>(
    search: &'a FailedSearch<'a>,
    w: usize,
    u: usize,
    depth: usize,
    parent: usize,
    role: u8,
    out: &mut [u8],
    k: usize,
) -> usize
    requires inside { (w < search.now.second.now.rows) × (u < search.now.first.now.rows) }
    requires missed { Missed (first_of search.now) (second_of search.now) search.now.missed.now depth w u }
    requires room { Room out.old k
        (reached_tree (against_tree (first_of search.now) (second_of search.now) depth w u) parent role k) }
    ensures { Written out.old k
        (reached_tree (against_tree (first_of search.now) (second_of search.now) depth w u) parent role k) result out.new }
{
    let first = search.first;
    let has = wanted(first.bytes, u);
    if !wanted_within(search.second.bytes, w, has) {
        write_individual(out, k, parent, role, has);
        return write_canonical_below(first, u, depth, k, out, k + 1);
    }
    let lacks = excluded(first.bytes, u);
    let excludes = excluded(search.second.bytes, w);
    if !excludes.subset(lacks) {
        write_individual(out, k, parent, role, widened(has, excludes, lacks));
        return write_canonical_below(first, u, depth, k, out, k + 1);
    }
    write_individual(out, k, parent, role, has);
    write_falsified(search, w, u, depth, k, out, k + 1)
}

// What hangs from row u, so that the first edge of w that no edge of u serves is not fitted.
#[cycle(against)]
fn write_falsified<'a>(
    search: &'a FailedSearch<'a>,
    w: usize,
    u: usize,
    depth: usize,
    parent: usize,
    out: &mut [u8],
    k: usize,
) -> usize
    requires inside { (w < search.now.second.now.rows) × (u < search.now.first.now.rows) }
    requires missed { Missed (first_of search.now) (second_of search.now) search.now.missed.now depth w u }
    requires carried { label_carried (first_of search.now) (second_of search.now) w u ≡ true }
    requires room { Room out.old k
        (reached_all (falsified_below (first_of search.now) (second_of search.now) depth w u) parent k) }
    ensures { Written out.old k
        (reached_all (falsified_below (first_of search.now) (second_of search.now) depth w u) parent k) result out.new }
{
    let c = usize::from(search.missed[u]);
    if depth == 0 || c == 0 {
        return write_canonical_below(search.first, u, depth, parent, out, k);
    }
    if kind(search.second.bytes, c) == KIND_FOR_ALL {
        let next = write_against_value(search, c, u, depth - 1, parent, out, k);
        return write_canonical_below(search.first, u, depth, parent, out, next);
    }
    write_realized(search, c, u, depth - 1, parent, out, k)
}

// One individual more by the role of the all-edge of row c, which fits what u asks of it and not c.
#[cycle(against)]
fn write_against_value<'a>(
    search: &'a FailedSearch<'a>,
    c: usize,
    u: usize,
    depth: usize,
    parent: usize,
    out: &mut [u8],
    k: usize,
) -> usize
    requires inside { (c < search.now.second.now.rows) × (u < search.now.first.now.rows) }
    requires kind { kind_of (second_of search.now) c ≡ kind_for_all }
    requires missed { MissedBelow (first_of search.now) (second_of search.now) search.now.missed.now depth c u }
    requires room { Room out.old k
        (reached_tree (against_value (first_of search.now) (second_of search.now) depth c u) parent
        (role_of (second_of search.now) c) k) }
    ensures { Written out.old k
        (reached_tree (against_value (first_of search.now) (second_of search.now) depth c u) parent
        (role_of (second_of search.now) c) k) result out.new }
{
    let role = row_role(search.second.bytes, c);
    let Some(v) = value_row(search.first, u, role) else {
        return write_against_top(search.second, c, depth, parent, role, out, k);
    };
    write_against(search, c, v, depth, parent, role, out, k)
}

// The some-successors of row u, none of which fits row c where it hangs by c's role.
#[cycle(against)]
fn write_realized<'a>(
    search: &'a FailedSearch<'a>,
    c: usize,
    u: usize,
    depth: usize,
    parent: usize,
    out: &mut [u8],
    k: usize,
) -> usize
    requires inside { (c < search.now.second.now.rows) × (u < search.now.first.now.rows) }
    requires kind { kind_of (second_of search.now) c ≡ kind_exists }
    requires missed { MissedBelow (first_of search.now) (second_of search.now) search.now.missed.now depth c u }
    requires room { Room out.old k
        (reached_all (realized_below (first_of search.now) (second_of search.now) depth c u) parent k) }
    ensures { Written out.old k
        (reached_all (realized_below (first_of search.now) (second_of search.now) depth c u) parent k) result out.new }
{
    let mut next = k;
    for v in search.first.below(u) {
        next = write_reached(search, c, v, depth, parent, out, next);
    }
    next
}

// The one for the successor v.
#[cycle(against)]
fn write_reached<'a>(
    search: &'a FailedSearch<'a>,
    c: usize,
    v: usize,
    depth: usize,
    parent: usize,
    out: &mut [u8],
    k: usize,
) -> usize
    requires inside { (c < search.now.second.now.rows) × (v < search.now.first.now.rows) × (v ≡ 0 → ⊥) }
    requires kind { kind_of (second_of search.now) c ≡ kind_exists }
    requires missed { same_edge (first_of search.now) (second_of search.now) c v ≡ true →
        Missed (first_of search.now) (second_of search.now) search.now.missed.now depth c v }
    requires room { Room out.old k
        (reached_all (realized_rows (first_of search.now) (second_of search.now) depth c (v ∷ [])) parent k) }
    ensures { Written out.old k
        (reached_all (realized_rows (first_of search.now) (second_of search.now) depth c (v ∷ [])) parent k) result out.new }
{
    if kind(search.first.bytes, v) == KIND_FOR_ALL {
        return k;
    }
    let role = row_role(search.first.bytes, v);
    if role == row_role(search.second.bytes, c) {
        return write_against(search, c, v, depth, parent, role, out, k);
    }
    write_canonical(search.first, v, depth, parent, role, out, k)
}

// The whole file, from the first byte on; gives its length.
pub fn write_refutation<'a>(
    first: &'a Table<'a>,
    second: &'a Table<'a>,
    missed: &'a [u8; MAX_ROWS],
    depth: usize,
    out: &mut [u8],
) -> usize
    requires missed { Missed first.now.bytes.now second.now.bytes.now missed.now depth 0 0 }
    requires room { RefutationRoom (against_tree first.now.bytes.now second.now.bytes.now depth 0 0) (length out.old) }
    ensures length { result ≡ length (refutation_file (against_tree first.now.bytes.now second.now.bytes.now depth 0 0)) }
    ensures bytes { out.new
        ≡ put out.old 0 (refutation_file (against_tree first.now.bytes.now second.now.bytes.now depth 0 0)) }
{
    let search = FailedSearch {
        first,
        second,
        missed,
    };
    let count = write_against(&search, 0, 0, depth, 0, 0, out, 0);
    let end = individual_place(count, 0);
    write_end(out, end);
    end + END_SIZE
}
