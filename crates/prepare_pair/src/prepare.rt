// Two pictures under a definitions book, in the order of every call on two: 1, 2 to 13 of the first, of the second, the
// questions of the book, then 14 of each, unfolded. Nothing is written before all are answered yes.
ghost use Rattle.std.specs.Prelude.{Ok, true, ◌≡◌, ◌≤◌, length};
ghost use Rattle.table.specs.Bounds.{Bounded, picture_size};
ghost use Rattle.workspace.specs.Lent.{roomy};
ghost use Rattle.workspace.specs.Prepare.{halves_put, work_size};
ghost use Rattle.picture.specs.Asked.{kept, on_asked};
ghost use Rattle.under.specs.Asked.{pair_asked_under};
ghost use Rattle.prepare_pair.specs.Tables.{HalvesRoom, PairRoom, both_merged, halves_under, opened_asked};
ghost use Rattle.prepare_pair.specs.Tables.{read_under, tables_of, tables_under, work_under};

use crate::unfolded::write_unfolded;
use definition_parts::opened::Tbox;
use definitions_asked::ask::open_definitions;
use definitions_asked::lots::Lot;
use merged_count::within::is_within;
use normal_writer::write::build_half;
use picture::answer::{Input, Refusal, short_buffer, too_many};
use picture_reader::read::read;
use table::layout::{END_SIZE, Limits, place};
use table_rows::row::ends_at;

// The rows of the two normal tables.
#[derive(Clone, Copy, PartialEq, Eq, Debug)]
pub struct Pair {
    pub first: usize,
    pub second: usize,
}

// The second half begins where the longest picture ends.
pub fn half_size(limits: Limits) -> usize
    requires { Bounded limits }
    ensures { result ≡ picture_size limits }
{
    place(limits.rows, END_SIZE)
}

// 1, of a call that is lent a result buffer too: whether the work space and that buffer, of which so many bytes are
// asked, are long enough.
pub fn has_room(limits: Limits, size: usize, work: usize, res: usize) -> bool
    requires { Bounded limits }
    ensures { result ≡ roomy limits size work res }
{
    let half = half_size(limits);
    half + half <= work && size <= res
}

// Both tables, of pictures for which 14 is answered yes: the lower half of the work space is lent to the writer, then
// the upper one.
fn build_halves(first: &[u8], second: &[u8], limits: Limits, work: &mut [u8]) -> Pair
    requires { HalvesRoom limits first.now second.now work.old }
    ensures { (result ≡ tables_of limits first.now second.now)
        × (work.new ≡ halves_put limits first.now second.now work.old) }
{
    let half = half_size(limits);
    let end = half + half;
    let n = build_half(first, limits, &mut work[..half]);
    let m = build_half(second, limits, &mut work[half..end]);
    Pair {
        first: n,
        second: m,
    }
}

// 14 of both, and then the tables. `write_unfolded` would do the same, but its 6 KB for an unfolded picture would then be
// on the stack of a call without definitions too.
fn write_pair(first: &[u8], second: &[u8], limits: Limits, work: &mut [u8]) -> Result<Pair, Refusal>
    requires { PairRoom limits first.now second.now work.old }
    ensures { (result ≡ on_asked (both_merged limits first.now second.now)
        (Ok (tables_of limits first.now second.now)))
        × (work.new ≡ kept (both_merged limits first.now second.now)
        (halves_put limits first.now second.now work.old) work.old) }
{
    if !is_within(first, limits) {
        return Err(too_many(Input::First));
    }
    if !is_within(second, limits) {
        return Err(too_many(Input::Second));
    }
    Ok(build_halves(first, second, limits, work))
}

// The questions of the definitions book, of pictures that have passed 2 to 13; then 14 of both, and the tables. A book
// of the end field alone changes nothing, so no table of definitions is made for it.
fn open_pair(
    tbox: &[u8],
    first: &[u8],
    second: &[u8],
    limits: Limits,
    work: &mut [u8],
) -> Result<Pair, Refusal>
    requires { PairRoom limits first.now second.now work.old }
    ensures { (result ≡ on_asked
        (opened_asked limits tbox.now first.now second.now)
        (Ok (tables_under limits tbox.now first.now second.now)))
        × (work.new ≡ kept (opened_asked limits tbox.now first.now second.now)
        (halves_under limits tbox.now first.now second.now work.old)
        work.old) }
{
    if ends_at(tbox, 0) {
        return write_pair(first, second, limits, work);
    }
    let found = open_definitions(tbox, first, &Lot::Second(second), limits);
    match &found {
        Ok(index) => {
            let opened = Tbox {
                bytes: tbox,
                starts: &index.starts,
                defined: index.defined,
            };
            write_unfolded(&opened, first, second, limits, work)
        }
        Err(refusal) => Err(*refusal),
    }
}

// 2 to 13 of the first, then of the second, and then those.
fn read_pair(
    tbox: &[u8],
    first: &[u8],
    second: &[u8],
    limits: Limits,
    work: &mut [u8],
) -> Result<Pair, Refusal>
    requires { (Bounded limits) × (work_size limits ≤ length work.old) }
    ensures { (result ≡ on_asked
        (read_under limits tbox.now first.now second.now)
        (Ok (tables_under limits tbox.now first.now second.now)))
        × (work.new ≡ kept (read_under limits tbox.now first.now second.now)
        (halves_under limits tbox.now first.now second.now work.old)
        work.old) }
{
    read(first, limits, Input::First)?;
    read(second, limits, Input::Second)?;
    open_pair(tbox, first, second, limits, work)
}

// 1, as the caller has asked it of its buffers, and then those.
pub fn prepare(
    tbox: &[u8],
    first: &[u8],
    second: &[u8],
    limits: Limits,
    enough: bool,
    work: &mut [u8],
) -> Result<Pair, Refusal>
    requires { (Bounded limits) × (enough ≡ true → work_size limits ≤ length work.old) }
    ensures { (result ≡ on_asked
        (pair_asked_under limits tbox.now enough first.now second.now)
        (Ok (tables_under limits tbox.now first.now second.now)))
        × (work.new ≡ work_under limits tbox.now first.now second.now
        enough work.old) }
{
    if !enough {
        return Err(short_buffer());
    }
    read_pair(tbox, first, second, limits, work)
}
