// 22 and 23: whether an individual of a refutation fits a row of a table. An individual and a row meet at most once, for
// each is reached from one other only; so the work is bounded by individuals times rows.
ghost use Rattle.std.specs.Prelude.{List, ◌≡◌, ℕ, ◌<◌};
ghost use Rattle.row_sets.specs.Rows.{Checked};
ghost use Rattle.homomorphism_search.specs.Search.{RowLabel};
ghost use Rattle.refutation_reader.specs.Individuals.{HasIndividual};
ghost use Rattle.model_check.specs.ModelRows.{below_fits, fits_row, reached_fits, satisfies_row};

use homomorphism_search::label::label_at;
use refutation_reader::individual::{names, role as individual_role};
use refutation_reader::refutation::Refutation;
use row_sets::label::Label;
use row_sets::linked::Table;
use row_sets::rows::{LINKS, fill_links};
use table::layout::KIND_FOR_ALL;
use table_rows::row::{kind, role};

// The names that hold of an individual, against a label.
fn satisfies(e: &[u8], i: usize, label: Label) -> bool
    requires { HasIndividual e.now i }
    ensures { (t : List ℕ) (w : ℕ) → RowLabel t w label → result ≡ satisfies_row t w e.now i }
{
    if label.bottom == 1 {
        return false;
    }
    let held = names(e, i);
    let wanted = label.wanted;
    let excluded = label.excluded;
    wanted.subset(held) && !excluded.overlaps(held)
}

// Whether individual i fits row w, whose label is given. Only `restricted` calls it, so it is compiled into the loop
// there.
#[cycle(fits)]
fn fits<'a>(
    refutation: &'a Refutation<'a>,
    table: &'a Table<'a>,
    label: Label,
    i: usize,
    w: usize,
) -> bool
    requires label { RowLabel table.now.bytes.now w label }
    requires inside { (i < refutation.now.count) × (w < table.now.rows) }
    ensures { result ≡ fits_row table.now.bytes.now w refutation.now.bytes.now i }
{
    if !satisfies(refutation.bytes, i, label) {
        return false;
    }
    below(refutation, table, i, w)
}

// Whether what the successors of row w ask of the individuals that i reaches is so.
#[cycle(fits)]
fn below<'a>(refutation: &'a Refutation<'a>, table: &'a Table<'a>, i: usize, w: usize) -> bool
    requires { (i < refutation.now.count) × (w < table.now.rows) }
    ensures { result ≡ below_fits table.now.bytes.now w refutation.now.bytes.now i }
{
    for c in table.below(w) {
        if !restricted(refutation, table, i, c) {
            return false;
        }
    }
    true
}

// Whether what successor c asks of the individuals that i reaches by its role is so: one of them fits it, or, of an
// all-successor, every one. The label of c is read once, and not at all where i reaches none.
#[cycle(fits)]
fn restricted<'a>(refutation: &'a Refutation<'a>, table: &'a Table<'a>, i: usize, c: usize) -> bool
    requires { (i < refutation.now.count) × (c < table.now.rows) }
    ensures { result ≡ reached_fits table.now.bytes.now c refutation.now.bytes.now i }
{
    let every = kind(table.bytes, c) == KIND_FOR_ALL;
    if refutation.links[i] == 0 {
        return every;
    }
    let by = role(table.bytes, c);
    let label = label_at(table.bytes, c);
    for j in refutation.reached(i) {
        if individual_role(refutation.bytes, j) == by {
            if fits(refutation, table, label, j, c) != every {
                return !every;
            }
        }
    }
    every
}

// Whether individual 0 fits a table.
// Not inlined, so that its array is in no caller's frame.
#[inline(never)]
pub fn fits_table(refutation: &Refutation, bytes: &[u8], rows: usize) -> bool
    requires { Checked bytes.now rows }
    ensures { result ≡ fits_row bytes.now 0 refutation.now.bytes.now 0 }
{
    let mut links = [0u8; LINKS];
    fill_links(bytes, rows, &mut links);
    if !satisfies(refutation.bytes, 0, label_at(bytes, 0)) {
        return false;
    }
    let table = Table {
        bytes,
        rows,
        links: &links,
    };
    below(refutation, &table, 0, 0)
}
