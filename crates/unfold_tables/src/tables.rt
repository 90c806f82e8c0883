// 14 and the normal table of a picture, unfolded. A picture of which no row wants a defined name is its own unfolded
// picture; any other is unfolded into a table of the function's own.
ghost use Rattle.std.specs.Prelude.{◌≡◌, ◌≤◌, leb, length};
ghost use Rattle.table.specs.Bounds.{max_rows, picture_size};
ghost use Rattle.table.specs.NameValues.{set_of};
ghost use Rattle.picture.specs.Readable.{row_count};
ghost use Rattle.meaning.specs.NormalTable.{merged_count, normal_file};
ghost use Rattle.normal.specs.Half.{half_of};
ghost use Rattle.normal_writer.specs.Tables.{Tabled, table_rows};
ghost use Rattle.definitions.specs.Unfolded.{unfolded_file};
ghost use Rattle.unfold_rows.specs.Takings.{wants_names};
ghost use Rattle.unfold_tables.specs.Calls.{ReturnsAt, TakesAt};
ghost use Rattle.unfold_tables.specs.Ready.{Changing, HalfSpace, TableSpace, Unfolding};

use definition_parts::opened::Tbox;
use merged_count::within::is_within;
use normal_writer::write::{TABLE, build_half, normal_table};
use table::layout::{Limits, ROW_SIZE};
use table::names::Names;
use unfold_rows::file::{file_part, unfold_file};
use unfold_rows::wants::wants_defined;

// Whether unfolding changes a picture. Without definitions it never does.
fn is_changed(picture: &[u8], defined: Names) -> bool
    requires { row_count picture.now ≤ max_rows }
    ensures { result ≡ wants_names picture.now (set_of defined) }
{
    if defined.is_none() {
        return false;
    }
    wants_defined(picture, picture.len() / ROW_SIZE, defined)
}

// The unfolded picture of one that changes.
fn unfold_changed<'a>(
    picture: &[u8],
    tbox: &Tbox<'_>,
    limits: Limits,
    made: &'a mut [u8],
) -> &'a [u8]
    requires { (Changing limits tbox.now.bytes.now tbox.now.starts.now (set_of tbox.now.defined) picture.now)
        × (picture_size limits ≤ length made.old) }
    ensures { result.now ≡ unfolded_file limits tbox.now.bytes.now picture.now }
{
    let rows = picture.len() / ROW_SIZE;
    let count = unfold_file(picture, rows, tbox, limits.rows, made);
    file_part(made, count)
}

// What is made of the unfolded picture, in a part that is lent. The limits are passed on, and not captured, so that their
// numbers are known where the picture is read.
// Not inlined, so that its array is in no caller's frame.
#[inline(never)]
fn with_unfolded<R, F: FnOnce(&[u8], Limits, &mut [u8]) -> R>(
    picture: &[u8],
    tbox: &Tbox<'_>,
    limits: Limits,
    out: &mut [u8],
    make: F,
) -> R
    requires ready { Unfolding limits tbox.now.bytes.now tbox.now.starts.now (set_of tbox.now.defined) picture.now }
    requires callable { TakesAt F.FnOnce make (unfolded_file limits tbox.now.bytes.now picture.now) limits out.old }
    ensures { ReturnsAt F.FnOnce make (unfolded_file limits tbox.now.bytes.now picture.now) limits out.old
        result out.new }
{
    if !is_changed(picture, tbox.defined) {
        return make(picture, limits, out);
    }
    let mut made = [0u8; TABLE];
    let file = unfold_changed(picture, tbox, limits, &mut made);
    make(file, limits, out)
}

// 14 of the unfolded picture.
pub fn is_unfolded_within(picture: &[u8], tbox: &Tbox<'_>, limits: Limits) -> bool
    requires { Unfolding limits tbox.now.bytes.now tbox.now.starts.now (set_of tbox.now.defined) picture.now }
    ensures { result
        ≡ leb (merged_count limits (unfolded_file limits tbox.now.bytes.now picture.now)) limits.rows }
{
    with_unfolded(
        picture,
        tbox,
        limits,
        &mut [],
        |file, limits, _| is_within(file, limits),
    )
}

// Writes the normal table of the unfolded picture, and gives its rows; 0 if 14 is answered no (`normal_table`).
pub fn unfolded_table(picture: &[u8], tbox: &Tbox<'_>, limits: Limits, out: &mut [u8]) -> usize
    requires { TableSpace limits tbox.now.bytes.now tbox.now.starts.now (set_of tbox.now.defined) picture.now out.old }
    ensures { Tabled limits (unfolded_file limits tbox.now.bytes.now picture.now) out.old
        result out.new }
{
    with_unfolded(
        picture,
        tbox,
        limits,
        out,
        |file, limits, out| normal_table(file, limits, out),
    )
}

// The same in a half of the work space, 14 being answered yes, and the rest of it cleared (`build_half`); the table's
// rows.
pub fn unfolded_half(picture: &[u8], tbox: &Tbox<'_>, limits: Limits, half: &mut [u8]) -> usize
    requires { HalfSpace limits tbox.now.bytes.now tbox.now.starts.now (set_of tbox.now.defined) picture.now half.old }
    ensures { (result ≡ table_rows limits (unfolded_file limits tbox.now.bytes.now picture.now))
        × (half.new
        ≡ half_of limits (normal_file limits (unfolded_file limits tbox.now.bytes.now picture.now))) }
{
    with_unfolded(
        picture,
        tbox,
        limits,
        half,
        |file, limits, half| build_half(file, limits, half),
    )
}
