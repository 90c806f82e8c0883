// The fields of a picture in turn, to the first that is no row.
ghost use Rattle.std.specs.Prelude.{◌≡◌, ◌<◌, ◌≤◌, length};
ghost use Rattle.table.specs.Layout.{«place», row_size};
ghost use Rattle.table.specs.Bounds.{Bounded, max_rows};
ghost use Rattle.picture_questions.specs.Depths.{Known};
ghost use Rattle.picture.specs.Questions.{field_at};
ghost use Rattle.picture.specs.Read.{answer_of, located, reading_of};

use crate::field::field_at;
use picture::answer::{Input, Refusal, refuse_at};
use picture::field::Field;
use picture::read::Failure;
use table::layout::{Limits, MAX_ROWS, ROW_SIZE, place};

// The field after n rows; where it is refused, with these rows.
fn field_after(
    s: &[u8],
    n: usize,
    limits: Limits,
    depths: &[u8; MAX_ROWS],
) -> Result<Field, Failure>
    requires { (Bounded limits) × ((n ≤ max_rows) × (Known s.now n depths.now)) }
    ensures { result ≡ located (field_at limits s.now n) n }
{
    field_at(s, n, limits, depths).map_err(|number| Failure { number, rows: n })
}

// A file with no room for a second row. Its table of depths is never written, so the compiler leaves it out; clearing one takes
// longer than reading the file.
fn scan_one(s: &[u8], limits: Limits) -> Result<usize, Failure>
    requires { (Bounded limits) × (length s.now < «place» 1 row_size) }
    ensures { result ≡ reading_of limits s.now }
{
    let depths = [0u8; MAX_ROWS];
    match field_after(s, 0, limits, &depths)? {
        Field::Row(_) => {
            field_after(s, 1, limits, &depths)?;
            Ok(1)
        }
        Field::End => Ok(0),
    }
}

fn scan_rows(s: &[u8], limits: Limits) -> Result<usize, Failure>
    requires { Bounded limits }
    ensures { result ≡ reading_of limits s.now }
{
    let mut depths = [0u8; MAX_ROWS];
    let mut n = 0;
    loop {
        match field_after(s, n, limits, &depths)? {
            Field::Row(depth) => {
                depths[n] = depth;
                n += 1;
            }
            Field::End => {
                return Ok(n);
            }
        }
    }
}

pub fn scan(s: &[u8], limits: Limits) -> Result<usize, Failure>
    requires { Bounded limits }
    ensures { result ≡ reading_of limits s.now }
{
    if s.len() < place(1, ROW_SIZE) {
        scan_one(s, limits)
    } else {
        scan_rows(s, limits)
    }
}

// The answer of the plain test for a picture that is the input named.
pub fn read(s: &[u8], limits: Limits, input: Input) -> Result<usize, Refusal>
    requires { Bounded limits }
    ensures { result ≡ answer_of limits input s.now }
{
    match scan(s, limits) {
        Ok(n) => Ok(n),
        Err(at) => Err(refuse_at(at.number, input, at.rows)),
    }
}
