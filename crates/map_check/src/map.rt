// 17 to 20, for each row of the second table in turn.
ghost use Rattle.std.specs.Prelude.{◌≡◌, true, ℕ, ◌<◌};
ghost use Rattle.table_rows.specs.Rows.{HasRow};
ghost use Rattle.ale.specs.PictureSignature.{picture_signature};
ghost use Rattle.ale.specs.RowMap.{edge_agrees, edge_joins, label_agrees};
ghost use Rattle.meaning.specs.Meaning.{picture_table};
ghost use Rattle.row_sets.specs.Rows.{Checked};
ghost use Rattle.homomorphism.specs.Layout.{image_of};
ghost use Rattle.evidence.specs.Form.{map_form};
ghost use Rattle.evidence.specs.Map.{map_asked, row_asked};

use crate::refusal::refusal_by;
use homomorphism_search::label::{label_at, label_within};
use homomorphism_search::search::same_edge;
use map_writer::layout::image;
use picture::answer::Refusal;
use table_rows::row::{impossible, parent};

// 19: the image carries the row's names and its mark, or is marked.
fn label_agrees(first: &[u8], v: usize, second: &[u8], i: usize) -> bool
    requires { (HasRow first.now v) × (HasRow second.now i) }
    ensures { result ≡ label_agrees picture_signature (picture_table first.now) (picture_table second.now) i v }
{
    if impossible(first, v) == 1 {
        return true;
    }
    label_within(label_at(second, i), first, v)
}

// Whether rows u and v of the first are joined by an edge of row i's kind and role.
fn edge_joins(first: &[u8], n: usize, u: usize, v: usize, second: &[u8], m: usize, i: usize) -> bool
    requires { (Checked first.now n) × ((Checked second.now m) × ((v < n) × ((i < m) × (i ≡ 0 → ⊥)))) }
    ensures { result ≡ edge_joins picture_signature (picture_table first.now) (picture_table second.now) i u v }
{
    if v == 0 {
        return false;
    }
    if parent(first, v) != u {
        return false;
    }
    same_edge(first, v, second, i)
}

// 20: they are so joined, or u is marked and v is u.
fn edge_agrees(
    first: &[u8],
    n: usize,
    u: usize,
    v: usize,
    second: &[u8],
    m: usize,
    i: usize,
) -> bool
    requires { (Checked first.now n) × ((Checked second.now m) × (((u < n) × (v < n)) × ((i < m) × (i ≡ 0 → ⊥)))) }
    ensures { result ≡ edge_agrees picture_signature (picture_table first.now) (picture_table second.now) i u v }
{
    if v == u {
        if impossible(first, u) == 1 {
            return true;
        }
    }
    edge_joins(first, n, u, v, second, m, i)
}

// 17 to 20 of row i, after the rows before it.
fn row_asked(
    first: &[u8],
    n: usize,
    second: &[u8],
    m: usize,
    e: &[u8],
    i: usize,
) -> Result<(), Refusal>
    requires { (Checked first.now n) × ((Checked second.now m) × ((map_form m e.now ≡ true) × ((i < m) × ((k : ℕ) → k < i → image_of e.now k < n)))) }
    ensures { result ≡ row_asked (picture_table first.now) (picture_table second.now) (image_of e.now) i }
{
    let v = image(e, i);
    if n <= v {
        return Err(refusal_by(17));
    }
    if i == 0 {
        if v != 0 {
            return Err(refusal_by(18));
        }
    }
    if !label_agrees(first, v, second, i) {
        return Err(refusal_by(19));
    }
    if i != 0 {
        if !edge_agrees(first, n, image(e, parent(second, i)), v, second, m, i) {
            return Err(refusal_by(20));
        }
    }
    Ok(())
}

// 17 to 20 of every row, to the first no.
pub fn map_asked(first: &[u8], n: usize, second: &[u8], m: usize, e: &[u8]) -> Result<(), Refusal>
    requires { (Checked first.now n) × ((Checked second.now m) × (map_form m e.now ≡ true)) }
    ensures { result ≡ map_asked (picture_table first.now) (picture_table second.now) (image_of e.now) }
{
    for i in 0..m {
        row_asked(first, n, second, m, e, i)?;
    }
    Ok(())
}
