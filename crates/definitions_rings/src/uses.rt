// Which defined names the picture of a definition uses.
ghost use Rattle.std.specs.Prelude.{◌≡◌, ℕ, ◌<◌};
ghost use Rattle.table.specs.NameSet.{has};
ghost use Rattle.table.specs.NameValues.{set_of};
ghost use Rattle.picture.specs.Readable.{row_count};
ghost use Rattle.table_rows.specs.Rows.{HasRow};
ghost use Rattle.definitions_rings.specs.Rings.{Uses, used_in};

use definition_parts::names::NameWalk;
use definition_parts::opened::Tbox;
use table::layout::{NAMES, ROW_SIZE};
use table::names::Names;
use table_rows::row::wanted;

// The defined names that some row of a picture wants.
fn used_names(picture: &[u8], defined: Names) -> Names
    requires { (k : ℕ) → k < row_count picture.now → HasRow picture.now k }
    ensures { (m : ℕ) → has (set_of result) m ≡ used_in picture.now (set_of defined) m }
{
    let rows = picture.len() / ROW_SIZE;
    let mut wants = Names::none();
    for k in 0..rows {
        wants = wants.union(wanted(picture, k));
    }
    wants.intersection(defined)
}

// Those of each defined name.
pub fn find_uses(tbox: &Tbox<'_>) -> [Names; NAMES]
    ensures { Uses tbox.now.bytes.now tbox.now.starts.now (set_of tbox.now.defined) result }
{
    let mut uses = [Names::none(); NAMES];
    for name in NameWalk::over(tbox.defined) {
        uses[name] = used_names(tbox.definition(name), tbox.defined);
    }
    uses
}
