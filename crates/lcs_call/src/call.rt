// The fourth call: question 1, both pictures, unfolded, into the work space, question 15, and the common picture into
// the result buffer.
ghost use Rattle.std.specs.Prelude.{Ok, ◌≡◌, ℕ, ◌≤◌, length};
ghost use Rattle.table.specs.Bounds.{Bounded, picture_size};
ghost use Rattle.table.specs.Put.{put};
ghost use Rattle.row_sets.specs.Rows.{Checked};
ghost use Rattle.picture.specs.Asked.{kept, on_asked};
ghost use Rattle.under.specs.Calls.{lcs_result_under, lcs_under, lcs_work_under};
ghost use Rattle.lcs_call.specs.Large.{large_in};
ghost use Rattle.product_writer.specs.Tables.{Trims, common_file_in};

use normal_writer::write::{SCRATCH, write_table};
use picture::answer::{Input, Refusal, refuse};
use prepare_pair::prepare::{half_size, has_room, prepare};
use prepare_pair::tables::{first_table, second_table};
use product_writer::graft::build;
use table::layout::Limits;

// 15, and the common picture of two normal tables. Nothing is written before 15 is answered yes.
fn write_common(
    first: &[u8],
    n: usize,
    second: &[u8],
    m: usize,
    limits: Limits,
    res: &mut [u8],
) -> Result<usize, Refusal>
    requires { (Checked first.now n) × ((Checked second.now m) × ((Trims first.now second.now limits.depth) × ((Bounded limits) × (picture_size limits ≤ length res.old)))) }
    ensures { (result ≡ on_asked (large_in limits first.now second.now)
        (Ok (length (common_file_in limits first.now second.now))))
        × (res.new ≡ kept (large_in limits first.now second.now)
        (put res.old 0 (common_file_in limits first.now second.now))
        res.old) }
{
    let mut scratch = [0u8; SCRATCH];
    let table = build(first, n, second, m, limits, &mut scratch);
    if limits.rows < table.rows {
        return Err(refuse(15, Input::Second));
    }
    Ok(write_table(&scratch, table, res))
}

// The call: 1; the pair under the definitions book; 15. Nothing is written before 14 is answered yes for both.
pub fn lcs(
    tbox: &[u8],
    first: &[u8],
    second: &[u8],
    limits: Limits,
    work: &mut [u8],
    res: &mut [u8],
) -> Result<usize, Refusal>
    requires { Bounded limits }
    ensures { (result ≡ lcs_under limits tbox.now first.now second.now
        (length work.old) (length res.old))
        × ((work.new ≡ lcs_work_under limits tbox.now first.now second.now
        work.old (length res.old))
        × (res.new ≡ lcs_result_under limits tbox.now first.now second.now
        (length work.old) res.old)) }
{
    let enough = has_room(limits, half_size(limits), work.len(), res.len());
    let pair = prepare(tbox, first, second, limits, enough, work)?;
    let low = first_table(work, pair);
    let high = second_table(work, limits, pair);
    write_common(low, pair.first, high, pair.second, limits, res)
}
