// The verdict on two tables, and its evidence.
ghost use Rattle.std.specs.Prelude.{◌≡◌, ℕ, length};
ghost use Rattle.table.specs.Put.{put};
ghost use Rattle.row_sets.specs.Rows.{Checked};
ghost use Rattle.subsumes.specs.Tables.{Settled, evidence_in, verdict_in};

use homomorphism_search::search::maps;
use map_writer::map::write_map;
use refutation_writer::refute::write_refutation;
use row_sets::linked::Table;
use row_sets::rows::{LINKS, fill_links};
use subsumption::verdict::Verdict;
use table::layout::MAX_ROWS;

// The verdict on two tables; the evidence is written from the first byte of out on.
pub fn decide(
    first: &[u8],
    n: usize,
    second: &[u8],
    m: usize,
    depth: usize,
    out: &mut [u8],
) -> Verdict
    requires { (Checked first.now n) × ((Checked second.now m) × (Settled first.now second.now depth (length out.old))) }
    ensures { (result ≡ verdict_in first.now second.now depth) × (out.new ≡ put out.old 0 (evidence_in first.now second.now depth)) }
{
    let mut links = [0u8; LINKS];
    fill_links(first, n, &mut links);
    let mut others = [0u8; LINKS];
    fill_links(second, m, &mut others);
    let first = Table {
        bytes: first,
        rows: n,
        links: &links,
    };
    let second = Table {
        bytes: second,
        rows: m,
        links: &others,
    };
    let mut found = [0u8; MAX_ROWS];
    let mut missed = [0u8; MAX_ROWS];
    if maps(&first, &second, depth, &mut found, &mut missed) {
        return Verdict::Yes(write_map(first.bytes, n, second.bytes, m, &found, out));
    }
    Verdict::No(write_refutation(&first, &second, &missed, depth, out))
}
