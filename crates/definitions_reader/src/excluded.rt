// 27: is no defined name excluded?
ghost use Rattle.std.specs.Prelude.{◌≡◌, ◌≤◌};
ghost use Rattle.table.specs.Bounds.{max_rows};
ghost use Rattle.table.specs.NameValues.{set_of};
ghost use Rattle.picture.specs.Readable.{row_count};
ghost use Rattle.definitions_reader.specs.Excluded.{excludes_none_of};

use table::names::Names;
use table_rows::row::excluded;

// Of a picture; one load and one test for each row.
pub fn excludes_none(picture: &[u8], rows: usize, defined: Names) -> bool
    requires { (rows ≡ row_count picture.now) × (rows ≤ max_rows) }
    ensures { result ≡ excludes_none_of picture.now (set_of defined) }
{
    for j in 0..rows {
        let names = excluded(picture, j);
        if names.overlaps(defined) {
            return false;
        }
    }
    true
}
