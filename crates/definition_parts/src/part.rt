// The picture of a definition, by where it begins: after its field's head and its name byte.
ghost use Rattle.std.specs.Prelude.{◌≡◌, ◌<◌, get_or};
ghost use Rattle.table.specs.Layout.{name_count};
ghost use Rattle.definition_parts.specs.Parts.{Part, part_at, part_length_of};

use table::layout::{HEAD_SIZE, LENGTH_AT, NAMES};
use table::number::load16;

// How long it is: its field's length less the name byte.
fn part_length(tbox: &[u8], at: usize) -> usize
    requires { Part tbox.now at }
    ensures { result ≡ part_length_of tbox.now at }
{
    load16(tbox, at - HEAD_SIZE - 1 + LENGTH_AT) as usize - 1
}

// The picture that begins at a place.
pub fn part(tbox: &[u8], at: usize) -> &[u8]
    requires { Part tbox.now at }
    ensures { result.now ≡ part_at tbox.now at }
{
    let end = at + part_length(tbox, at);
    &tbox[at..end]
}

// The picture of a name.
pub fn definition<'a>(tbox: &'a [u8], starts: &[usize; NAMES], name: usize) -> &'a [u8]
    requires { (name < name_count) × (Part tbox.now (get_or starts.now name 0)) }
    ensures { result.now ≡ part_at tbox.now (get_or starts.now name 0) }
{
    part(tbox, starts[name])
}
