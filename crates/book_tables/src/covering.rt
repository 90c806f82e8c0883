// Whether one normal table covers another.
ghost use Rattle.std.specs.Prelude.{◌≡◌};
ghost use Rattle.homomorphism_search.specs.Search.{row_maps};

use homomorphism_search::search::maps;
use row_sets::linked::Table;
use table::layout::MAX_ROWS;

// Whether the second table maps to the first, root to root.
pub fn table_covers<'a>(first: &'a Table<'a>, second: &'a Table<'a>, depth: usize) -> bool
    ensures { result ≡ row_maps first.now.bytes.now second.now.bytes.now depth 0 0 }
{
    let mut found = [0u8; MAX_ROWS];
    let mut missed = [0u8; MAX_ROWS];
    maps(first, second, depth, &mut found, &mut missed)
}
