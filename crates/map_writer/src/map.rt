// The map file: the lowest possible image of each row, parents first.
ghost use Rattle.std.specs.Prelude.{◌≡◌, ℕ, ◌+◌, ◌<◌, ◌≤◌, length};
ghost use Rattle.table.specs.Layout.{end_size};
ghost use Rattle.table.specs.Put.{put};
ghost use Rattle.meaning.specs.Meaning.{picture_table};
ghost use Rattle.homomorphism.specs.Layout.{image_of, «image_place»};
ghost use Rattle.homomorphism.specs.Map.{image_bytes, lowest_map};
ghost use Rattle.homomorphism_search.specs.Search.{Mapped};
ghost use Rattle.map_writer.specs.Images.{image_row};
ghost use Rattle.row_sets.specs.Rows.{Checked};

use crate::layout::{MAP_TAG, image, image_place};
use table::layout::{END_SIZE, MAX_ROWS, NUMBER_SIZE};
use table::number::copy_in;
use table_rows::row::{impossible, parent, write_end};

// The image of row i, from those of the rows before it, which stand in the file.
fn next_image(
    first: &[u8],
    n: usize,
    second: &[u8],
    m: usize,
    found: &[u8; MAX_ROWS],
    out: &[u8],
    i: usize,
) -> usize
    requires first { Checked first.now n }
    requires second { Checked second.now m }
    requires mapped { Mapped first.now second.now found.now }
    requires inside { i < m }
    requires room { «image_place» m ≤ length out.now }
    requires before { (k : ℕ) → k < i → image_of out.now k ≡ image_row first.now second.now k }
    ensures { result ≡ image_row first.now second.now i }
{
    if i == 0 {
        return 0;
    }
    let u = image(out, parent(second, i));
    if impossible(first, u) == 1 {
        return u;
    }
    usize::from(found[i])
}

// Every image.
fn write_images(
    first: &[u8],
    n: usize,
    second: &[u8],
    m: usize,
    found: &[u8; MAX_ROWS],
    out: &mut [u8],
)
    requires first { Checked first.now n }
    requires second { Checked second.now m }
    requires mapped { Mapped first.now second.now found.now }
    requires room { «image_place» m ≤ length out.old }
    ensures { out.new ≡ put out.old («image_place» 0)
        (image_bytes (image_row first.now second.now) m) }
{
    for i in 0..m {
        let v = next_image(first, n, second, m, found, out, i);
        let bytes = [(v / 256 % 256) as u8, (v % 256) as u8];
        copy_in(out, image_place(i), &bytes);
    }
}

// The whole file, from the first byte on; gives its length.
pub fn write_map(
    first: &[u8],
    n: usize,
    second: &[u8],
    m: usize,
    found: &[u8; MAX_ROWS],
    out: &mut [u8],
) -> usize
    requires first { Checked first.now n }
    requires second { Checked second.now m }
    requires mapped { Mapped first.now second.now found.now }
    requires room { «image_place» m + end_size ≤ length out.old }
    ensures length { result ≡ length (lowest_map (picture_table first.now) (picture_table second.now)) }
    ensures bytes { out.new
        ≡ put out.old 0 (lowest_map (picture_table first.now) (picture_table second.now)) }
{
    let size = NUMBER_SIZE * m;
    let head = [MAP_TAG, (size / 256 % 256) as u8, (size % 256) as u8];
    copy_in(out, 0, &head);
    write_images(first, n, second, m, found, out);
    let end = image_place(m);
    write_end(out, end);
    end + END_SIZE
}
