// 14 of two pictures, unfolded, and their tables in the halves of the work space.
ghost use Rattle.std.specs.Prelude.{Ok, ◌≡◌};
ghost use Rattle.picture.specs.Asked.{kept, on_asked};
ghost use Rattle.prepare_pair.specs.Tables.{UnfoldedHalves, UnfoldedPair, halves_under, merged_under, tables_under};

use crate::prepare::{Pair, half_size};
use definition_parts::opened::Tbox;
use picture::answer::{Input, Refusal, too_many};
use table::layout::Limits;
use unfold_tables::tables::{is_unfolded_within, unfolded_half};

// Both tables, of pictures for which 14 is answered yes, unfolded.
fn build_unfolded(
    tbox: &Tbox<'_>,
    first: &[u8],
    second: &[u8],
    limits: Limits,
    work: &mut [u8],
) -> Pair
    requires { UnfoldedHalves limits tbox.now first.now second.now work.old }
    ensures { (result ≡ tables_under limits tbox.now.bytes.now first.now second.now)
        × (work.new ≡ halves_under limits tbox.now.bytes.now first.now second.now
        work.old) }
{
    let half = half_size(limits);
    let end = half + half;
    let n = unfolded_half(first, tbox, limits, &mut work[..half]);
    let m = unfolded_half(second, tbox, limits, &mut work[half..end]);
    Pair {
        first: n,
        second: m,
    }
}

// 14 of both, unfolded, and then the tables.
pub fn write_unfolded(
    tbox: &Tbox<'_>,
    first: &[u8],
    second: &[u8],
    limits: Limits,
    work: &mut [u8],
) -> Result<Pair, Refusal>
    requires { UnfoldedPair limits tbox.now first.now second.now work.old }
    ensures { (result ≡ on_asked
        (merged_under limits tbox.now.bytes.now first.now second.now)
        (Ok (tables_under limits tbox.now.bytes.now first.now second.now)))
        × (work.new ≡ kept (merged_under limits tbox.now.bytes.now first.now second.now)
        (halves_under limits tbox.now.bytes.now first.now second.now work.old)
        work.old) }
{
    if !is_unfolded_within(first, tbox, limits) {
        return Err(too_many(Input::First));
    }
    if !is_unfolded_within(second, tbox, limits) {
        return Err(too_many(Input::Second));
    }
    Ok(build_unfolded(tbox, first, second, limits, work))
}
