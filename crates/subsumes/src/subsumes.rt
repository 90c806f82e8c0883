// The third call: question 1, both pictures, unfolded, into the work space, the verdict, and the evidence into the
// result buffer.
ghost use Rattle.std.specs.Prelude.{◌≡◌, ℕ, length};
ghost use Rattle.table.specs.Bounds.{Bounded};
ghost use Rattle.under.specs.Calls.{subsumes_result_under, subsumes_under, subsumes_work_under};

use crate::verdict::decide;
use picture::answer::Refusal;
use prepare_pair::prepare::{has_room, prepare};
use prepare_pair::tables::{first_table, second_table};
use refutation_reader::layout::{individual_place, individuals_within};
use subsumption::verdict::Verdict;
use table::layout::{END_SIZE, Limits};

// The call: 1; the pair under the definitions book; the verdict. Nothing is written before 14 is answered yes for both.
pub fn subsumes(
    tbox: &[u8],
    first: &[u8],
    second: &[u8],
    limits: Limits,
    work: &mut [u8],
    res: &mut [u8],
) -> Result<Verdict, Refusal>
    requires { Bounded limits }
    ensures { (result ≡ subsumes_under limits tbox.now first.now second.now
        (length work.old) (length res.old))
        × ((work.new ≡ subsumes_work_under limits tbox.now first.now second.now
        work.old (length res.old))
        × (res.new ≡ subsumes_result_under limits tbox.now first.now
        second.now (length work.old) res.old)) }
{
    let size = individual_place(individuals_within(limits), END_SIZE);
    let enough = has_room(limits, size, work.len(), res.len());
    let pair = prepare(tbox, first, second, limits, enough, work)?;
    let low = first_table(work, pair);
    let high = second_table(work, limits, pair);
    Ok(decide(low, pair.first, high, pair.second, limits.depth, res))
}
