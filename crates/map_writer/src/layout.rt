// The numbers of a map file.
ghost use Rattle.std.specs.Prelude.{◌≡◌, ℕ, ◌+◌, ◌≤◌, length};
ghost use Rattle.table.specs.Bounds.{max_rows};
ghost use Rattle.table.specs.Layout.{number_size};
ghost use Rattle.homomorphism.specs.Layout.{image_of, «image_place»};

use table::layout::{HEAD_SIZE, NUMBER_SIZE};
use table::number::load16;

pub const MAP_TAG: u8 = 0x41;

// The byte at which the image of a row stands.
pub fn image_place(i: usize) -> usize
    requires { i ≤ max_rows }
    ensures { result ≡ «image_place» i }
{
    HEAD_SIZE + NUMBER_SIZE * i
}

// The image of row i.
pub fn image(e: &[u8], i: usize) -> usize
    requires { (i ≤ max_rows) × («image_place» i + number_size ≤ length e.now) }
    ensures { result ≡ image_of e.now i }
{
    load16(e, image_place(i)) as usize
}
