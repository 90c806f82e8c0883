// The second call: question 1, the reading, the questions of the definitions book, question 14 of the unfolded picture,
// and its normal table into the result buffer.
ghost use Rattle.std.specs.Prelude.{Err, Ok, ◌≡◌, ◌≤◌, eqb, length};
ghost use Rattle.table.specs.Bounds.{Bounded};
ghost use Rattle.table.specs.NameValues.{set_of};
ghost use Rattle.table.specs.Pick.{pick};
ghost use Rattle.table.specs.Put.{put};
ghost use Rattle.picture.specs.Asked.{and_then};
ghost use Rattle.picture.specs.Refusal.{too_many};
ghost use Rattle.normal_writer.specs.Tables.{TableRoom};
ghost use Rattle.normal.specs.Call.{merged_asked};
ghost use Rattle.definitions.specs.Asked.{definitions_asked};
ghost use Rattle.definitions.specs.Unfolded.{unfolded_file};
ghost use Rattle.under.specs.Calls.{normalize_result_under, normalize_under};
ghost use Rattle.under.specs.Given.{one};
ghost use Rattle.unfold_tables.specs.Ready.{TableSpace};
ghost use Rattle.normalize_call.specs.Written.{Written};

use definition_parts::opened::Tbox;
use definitions_asked::ask::open_definitions;
use definitions_asked::lots::Lot;
use normal_writer::write::{TABLE, normal_table, table_of};
use picture::answer::{Input, Refusal, short_buffer, too_many};
use picture_reader::read::read;
use table::layout::{END_SIZE, Limits, place};
use table::number::copy_in;
use table_rows::row::ends_at;
use unfold_tables::tables::unfolded_table;

// 14, by the rows of a table that was made, none if it is answered no; and the table into the result buffer.
fn give_table(table: &[u8], rows: usize, res: &mut [u8]) -> Result<usize, Refusal>
    requires { length table.now ≤ length res.old }
    ensures { (result ≡ pick (eqb rows 0) (Err (too_many Input.First))
        (Ok (length table.now)))
        × (res.new
        ≡ pick (eqb rows 0) res.old (put res.old 0 table.now)) }
{
    if rows == 0 {
        return Err(too_many(Input::First));
    }
    copy_in(res, 0, table);
    Ok(table.len())
}

// 14 of a picture, and its table: it is made in an array of the call's own, for nothing is written before 14 is
// answered yes. `write_unfolded` would do the same, but its 6 KB for an unfolded picture would then be on the stack of a
// call without definitions too.
fn write_normal(picture: &[u8], limits: Limits, res: &mut [u8]) -> Result<usize, Refusal>
    requires { TableRoom limits picture.now res.old }
    ensures { Written limits (merged_asked limits Input.First picture.now) picture.now
        res.old result res.new }
{
    let mut made = [0u8; TABLE];
    let n = normal_table(picture, limits, &mut made);
    give_table(table_of(&made, n), n, res)
}

// The same of the unfolded picture.
fn write_unfolded(
    picture: &[u8],
    tbox: &Tbox<'_>,
    limits: Limits,
    res: &mut [u8],
) -> Result<usize, Refusal>
    requires { TableSpace limits tbox.now.bytes.now tbox.now.starts.now (set_of tbox.now.defined) picture.now res.old }
    ensures { Written limits
        (merged_asked limits Input.First (unfolded_file limits tbox.now.bytes.now picture.now))
        (unfolded_file limits tbox.now.bytes.now picture.now) res.old result
        res.new }
{
    let mut made = [0u8; TABLE];
    let rows = unfolded_table(picture, tbox, limits, &mut made);
    give_table(table_of(&made, rows), rows, res)
}

// The questions of the definitions book, 14 and the table. Under a book of the end field alone the picture goes as it
// is.
fn write_under(
    tbox: &[u8],
    picture: &[u8],
    limits: Limits,
    res: &mut [u8],
) -> Result<usize, Refusal>
    requires { TableRoom limits picture.now res.old }
    ensures { Written limits (and_then (definitions_asked limits tbox.now (one picture.now))
        (merged_asked limits Input.First (unfolded_file limits tbox.now picture.now)))
        (unfolded_file limits tbox.now picture.now) res.old result
        res.new }
{
    if ends_at(tbox, 0) {
        return write_normal(picture, limits, res);
    }
    let found = open_definitions(tbox, picture, &Lot::Nothing, limits);
    match &found {
        Ok(index) => {
            let opened = Tbox {
                bytes: tbox,
                starts: &index.starts,
                defined: index.defined,
            };
            write_unfolded(picture, &opened, limits, res)
        }
        Err(refusal) => Err(*refusal),
    }
}

pub fn normalize(
    tbox: &[u8],
    picture: &[u8],
    limits: Limits,
    res: &mut [u8],
) -> Result<usize, Refusal>
    requires { Bounded limits }
    ensures { (result
        ≡ normalize_under limits tbox.now picture.now (length res.old))
        × (res.new
        ≡ normalize_result_under limits tbox.now picture.now res.old) }
{
    if res.len() < place(limits.rows, END_SIZE) {
        return Err(short_buffer());
    }
    read(picture, limits, Input::First)?;
    write_under(tbox, picture, limits, res)
}
