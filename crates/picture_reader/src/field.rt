// One field of a picture: the questions that are asked of it, in their order. Each question's number is named once.
ghost use Rattle.std.specs.Prelude.{◌≡◌, ◌≤◌};
ghost use Rattle.table.specs.Bounds.{max_rows, Bounded};
ghost use Rattle.table_rows.specs.Rows.{HasRow};
ghost use Rattle.picture_questions.specs.Depths.{Known};
ghost use Rattle.picture.specs.Questions.{value_field, row_field, end_field, field_at};

use picture::field::Field;
use picture_questions::question::{
    depth_at, impossible_ok, kind_ok, length_for, parent_ok, role_ok, tag_ok,
};
use table::layout::{END_SIZE, HEAD_SIZE, Limits, MAX_ROWS, ROW_SIZE, ROW_TAG, place};
use table_rows::row::{said_length, tag};

// Questions 9 to 13.
fn value_field(s: &[u8], n: usize, limits: Limits, depths: &[u8; MAX_ROWS]) -> Result<Field, u8>
    requires { (Bounded limits) × ((HasRow s.now n) × (Known s.now n depths.now)) }
    ensures { result ≡ value_field limits s.now n }
{
    if !kind_ok(s, n) {
        return Err(9);
    }
    if !role_ok(s, n) {
        return Err(10);
    }
    if !parent_ok(s, n) {
        return Err(11);
    }
    let depth = depth_at(s, n, depths);
    if limits.depth < depth {
        return Err(12);
    }
    if !impossible_ok(s, n) {
        return Err(13);
    }
    Ok(Field::Row(depth as u8))
}

// Questions 5 to 13, of a field whose head is that of a row.
fn row_field(s: &[u8], n: usize, limits: Limits, depths: &[u8; MAX_ROWS]) -> Result<Field, u8>
    requires { (Bounded limits) × (Known s.now n depths.now) }
    ensures { result ≡ row_field limits s.now n }
{
    if limits.rows <= n {
        return Err(5);
    }
    if s.len() < place(n, ROW_SIZE) {
        return Err(6);
    }
    value_field(s, n, limits, depths)
}

// Questions 7 and 8, of a field whose head is that of an end field.
fn end_field(s: &[u8], n: usize) -> Result<Field, u8>
    requires { n ≤ max_rows }
    ensures { result ≡ end_field s.now n }
{
    if n == 0 {
        return Err(7);
    }
    if s.len() == place(n, END_SIZE) {
        Ok(Field::End)
    } else {
        Err(8)
    }
}

// All questions of the field after n rows.
pub fn field_at(s: &[u8], n: usize, limits: Limits, depths: &[u8; MAX_ROWS]) -> Result<Field, u8>
    requires { (Bounded limits) × ((n ≤ max_rows) × (Known s.now n depths.now)) }
    ensures { result ≡ field_at limits s.now n }
{
    if s.len() < place(n, HEAD_SIZE) {
        return Err(2);
    }
    let tag = tag(s, n);
    if !tag_ok(tag) {
        return Err(3);
    }
    if said_length(s, n) != length_for(tag) {
        return Err(4);
    }
    match tag {
        ROW_TAG => row_field(s, n, limits, depths),
        0..=0x0F | 0x11..=0xFF => end_field(s, n),
    }
}
