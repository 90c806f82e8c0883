// The fifth call: question 1, both pictures, unfolded, into the work space, and the evidence.
ghost use Rattle.std.specs.Prelude.{◌≡◌, ℕ, length};
ghost use Rattle.table.specs.Bounds.{Bounded};
ghost use Rattle.under.specs.Calls.{verify_under, verify_work_under};

use crate::check::check;
use evidence::check::Taken;
use picture::answer::Refusal;
use prepare_pair::prepare::{half_size, prepare};
use prepare_pair::tables::{first_table, second_table};
use table::layout::Limits;

// The call: 1; the pair under the definitions book; 16 to 23. Only the pair is written.
pub fn verify(
    tbox: &[u8],
    first: &[u8],
    second: &[u8],
    evidence: &[u8],
    limits: Limits,
    work: &mut [u8],
) -> Result<Taken, Refusal>
    requires { Bounded limits }
    ensures { (result ≡ verify_under limits tbox.now first.now second.now
        evidence.now (length work.old))
        × (work.new ≡ verify_work_under limits tbox.now first.now second.now
        work.old) }
{
    let half = half_size(limits);
    let enough = half + half <= work.len();
    let pair = prepare(tbox, first, second, limits, enough, work)?;
    let low = first_table(work, pair);
    let high = second_table(work, limits, pair);
    check(low, pair.first, high, pair.second, limits, evidence)
}
