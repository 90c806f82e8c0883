// An individual more in a refutation file, and the canonical model of a row.
ghost use Rattle.std.specs.Prelude.{◌≡◌, ℕ, ◌<◌, ◌≤◌, length};
ghost use Rattle.table.specs.NameValues.{set_of};
ghost use Rattle.table.specs.Put.{put};
ghost use Rattle.countermodel.specs.Layout.{«individual_place», individual_size, most_individuals};
ghost use Rattle.refutation_writer.specs.Refuting.{canonical_below, canonical_tree, reached_all, reached_tree};
ghost use Rattle.countermodel.specs.Writing.{individual_bytes};
ghost use Rattle.refutation_writer.specs.Writing.{Room, Written};

use refutation_reader::layout::{INDIVIDUAL_LENGTH, INDIVIDUAL_TAG, NAMES_AT, individual_place};
use row_sets::linked::Table;
use table::layout::KIND_EXISTS;
use table::names::Names;
use table::number::copy_in;
use table_rows::row::{kind, role as row_role, wanted};

// Individual k.
pub fn write_individual(out: &mut [u8], k: usize, parent: usize, role: u8, names: Names)
    requires { (k < most_individuals) × («individual_place» k individual_size ≤ length out.old) }
    ensures { out.new ≡ put out.old («individual_place» k 0) (individual_bytes parent role (set_of names)) }
{
    let head = [
        INDIVIDUAL_TAG,
        (INDIVIDUAL_LENGTH / 256) as u8,
        (INDIVIDUAL_LENGTH % 256) as u8,
        (parent / 256 % 256) as u8,
        (parent % 256) as u8,
        role,
    ];
    copy_in(out, individual_place(k, 0), &head);
    names.store(out, individual_place(k, NAMES_AT));
}

// The canonical model of row u, as individual k and those below it; gives the number of the next.
#[cycle(canonical)]
pub fn write_canonical<'a>(
    first: &'a Table<'a>,
    u: usize,
    depth: usize,
    parent: usize,
    role: u8,
    out: &mut [u8],
    k: usize,
) -> usize
    requires inside { u < first.now.rows }
    requires room { Room out.old k (reached_tree (canonical_tree first.now.bytes.now depth u) parent role k) }
    ensures { Written out.old k (reached_tree (canonical_tree first.now.bytes.now depth u) parent role k) result out.new }
{
    write_individual(out, k, parent, role, wanted(first.bytes, u));
    write_canonical_below(first, u, depth, k, out, k + 1)
}

// What hangs from row u in it, reached from individual `parent`.
#[cycle(canonical)]
pub fn write_canonical_below<'a>(
    first: &'a Table<'a>,
    u: usize,
    depth: usize,
    parent: usize,
    out: &mut [u8],
    k: usize,
) -> usize
    requires inside { u < first.now.rows }
    requires room { Room out.old k (reached_all (canonical_below first.now.bytes.now depth u) parent k) }
    ensures { Written out.old k (reached_all (canonical_below first.now.bytes.now depth u) parent k) result out.new }
{
    if depth == 0 {
        return k;
    }
    let mut next = k;
    for v in first.below(u) {
        if kind(first.bytes, v) == KIND_EXISTS {
            let role = row_role(first.bytes, v);
            next = write_canonical(first, v, depth - 1, parent, role, out, next);
        }
    }
    next
}
