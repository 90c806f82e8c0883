// Whether unfolding changes a picture.
ghost use Rattle.std.specs.Prelude.{◌≡◌, ◌≤◌};
ghost use Rattle.table.specs.Bounds.{max_rows};
ghost use Rattle.table.specs.NameValues.{set_of};
ghost use Rattle.picture.specs.Readable.{row_count};
ghost use Rattle.unfold_rows.specs.Takings.{wants_names};

use table::names::Names;
use table_rows::row::wanted;

// Whether a row wants a defined name.
pub fn wants_defined(picture: &[u8], rows: usize, defined: Names) -> bool
    requires { (rows ≡ row_count picture.now) × (rows ≤ max_rows) }
    ensures { result ≡ wants_names picture.now (set_of defined) }
{
    (0..rows).any(|j| wanted(picture, j).overlaps(defined))
}
