// The check of evidence against two tables.
ghost use Rattle.std.specs.Prelude.{◌≡◌, ℕ};
ghost use Rattle.table.specs.Bounds.{Bounded};
ghost use Rattle.meaning.specs.Meaning.{picture_table};
ghost use Rattle.row_sets.specs.Rows.{Checked};
ghost use Rattle.refutation_reader.specs.Individuals.{Individuals};
ghost use Rattle.countermodel.specs.Model.{row_tree};
ghost use Rattle.evidence.specs.Check.{refutation_asked};
ghost use Rattle.evidence_check.specs.Tables.{check_in};

use crate::form::has_map_form;
use evidence::check::Taken;
use map_check::map::map_asked;
use map_check::refusal::refusal_by;
use model_check::model::fits_table;
use picture::answer::Refusal;
use refutation_reader::individual::{count, has_refutation_form, individuals_ok};
use refutation_reader::links::{INDIVIDUAL_LINKS, fill_links};
use refutation_reader::refutation::Refutation;
use table::layout::Limits;

// 21 to 23.
fn refutation_asked(
    first: &[u8],
    n: usize,
    second: &[u8],
    m: usize,
    e: &[u8],
    k: usize,
) -> Result<(), Refusal>
    requires { (Checked first.now n) × ((Checked second.now m) × (Individuals e.now k)) }
    ensures { result ≡ refutation_asked (row_tree (picture_table first.now) 0) (row_tree (picture_table second.now) 0) e.now }
{
    if !individuals_ok(e, k) {
        return Err(refusal_by(21));
    }
    let mut links = [0u16; INDIVIDUAL_LINKS];
    fill_links(e, k, &mut links);
    let refutation = Refutation {
        bytes: e,
        count: k,
        links: &links,
    };
    if !fits_table(&refutation, first, n) {
        return Err(refusal_by(22));
    }
    if fits_table(&refutation, second, m) {
        return Err(refusal_by(23));
    }
    Ok(())
}

// 16, and then the questions of the form. No file has both forms: their first tags differ.
pub fn check(
    first: &[u8],
    n: usize,
    second: &[u8],
    m: usize,
    limits: Limits,
    e: &[u8],
) -> Result<Taken, Refusal>
    requires { (Bounded limits) × ((Checked first.now n) × (Checked second.now m)) }
    ensures { result ≡ check_in limits first.now second.now e.now }
{
    if has_map_form(e, m) {
        map_asked(first, n, second, m, e)?;
        return Ok(Taken::Map);
    }
    if has_refutation_form(e, limits) {
        refutation_asked(first, n, second, m, e, count(e))?;
        return Ok(Taken::Refutation);
    }
    Err(refusal_by(16))
}
