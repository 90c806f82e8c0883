// The individuals that are reached from each one, by links.
ghost use Rattle.std.specs.Prelude.{◌≡◌, true, ℕ, ◌+◌};
ghost use Rattle.table_rows.specs.Links.{Linked, Zeros};
ghost use Rattle.table.specs.Range.{each};
ghost use Rattle.countermodel.specs.Layout.{most_individuals};
ghost use Rattle.countermodel.specs.Individual.{individual_ok, individual_parent};
ghost use Rattle.refutation_reader.specs.Individuals.{Individuals};

use crate::individual::parent;
use crate::layout::MAX_INDIVIDUALS;

// For each individual the lowest that is reached from it, and the next that is reached from the same one.
pub const INDIVIDUAL_LINKS: usize = 2 * MAX_INDIVIDUALS;

// One pass from the last individual down; 0 where there is none.
pub fn fill_links(e: &[u8], n: usize, links: &mut [u16; INDIVIDUAL_LINKS])
    requires { (Individuals e.now n) × ((each (individual_ok e.now) n 0 ≡ true) × (Zeros (most_individuals + most_individuals) links.old)) }
    ensures { Linked (individual_parent e.now) n most_individuals links.new }
{
    for k in (1..n).rev() {
        let above = parent(e, k);
        links[MAX_INDIVIDUALS + k] = links[above];
        links[above] = k as u16;
    }
}
