// 16: the form of a map. That of a refutation is refutation_reader's.
ghost use Rattle.std.specs.Prelude.{◌≡◌, ℕ, ◌≤◌};
ghost use Rattle.table.specs.Bounds.{max_rows};
ghost use Rattle.evidence.specs.Form.{map_form};

use map_writer::layout::{MAP_TAG, image_place};
use table::layout::{LENGTH_AT, NUMBER_SIZE};
use table::number::load16;
use table_rows::row::ends_at;

// A map of so many rows.
pub fn has_map_form(e: &[u8], rows: usize) -> bool
    requires { rows ≤ max_rows }
    ensures { result ≡ map_form rows e.now }
{
    if !ends_at(e, image_place(rows)) {
        return false;
    }
    let tag = e[0];
    match tag {
        MAP_TAG => load16(e, LENGTH_AT) as usize == NUMBER_SIZE * rows,
        0..=0x40 | 0x42..=0xFF => false,
    }
}
