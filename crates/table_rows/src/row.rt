// The fields of a row, read by the row's number.
ghost use Rattle.std.specs.Prelude.{◌≡◌, ℕ, ◌+◌, ◌^◌, ◌≤◌, ◌<◌, length, get_or};
ghost use Rattle.table.specs.Layout.{«place», number_size, name_bytes, name_count, head_size, row_size, end_size};
ghost use Rattle.table.specs.Number.{be};
ghost use Rattle.table.specs.Bounds.{max_rows};
ghost use Rattle.table.specs.Put.{put};
ghost use Rattle.table.specs.NameValues.{set_of};
ghost use Rattle.table.specs.Fields.{tag_of, length_of, parent_of, kind_of, role_of, impossible_of, wanted_of, excluded_of, end_bytes, ends_at};
ghost use Rattle.table_rows.specs.Rows.{HasRow};

use table::layout::{
    END_LENGTH, END_SIZE, END_TAG, EXCLUDED_AT, IMPOSSIBLE_AT, KIND_AT, LENGTH_AT, PARENT_AT,
    ROLE_AT, WANTED_AT, place,
};
use table::names::Names;
use table::number::{copy_in, load16, number_bytes};

// One byte, a number of two bytes and a set of names at an offset of a row.
fn byte(s: &[u8], row: usize, offset: usize) -> u8
    requires { (row ≤ max_rows) × (offset ≤ row_size) × («place» row offset < length s.now) }
    ensures { result ≡ get_or s.now («place» row offset) 0 }
{
    s[place(row, offset)]
}

fn number(s: &[u8], row: usize, offset: usize) -> usize
    requires { (row ≤ max_rows) × (offset ≤ row_size) × («place» row offset + number_size ≤ length s.now) }
    ensures { (result ≡ be s.now («place» row offset) number_size) × (result < 256 ^ number_size) }
{
    load16(s, place(row, offset)) as usize
}

fn names(s: &[u8], row: usize, offset: usize) -> Names
    requires { (row ≤ max_rows) × (offset ≤ row_size) × («place» row offset + name_bytes ≤ length s.now) }
    ensures { (set_of result ≡ be s.now («place» row offset) name_bytes) × (set_of result < 2 ^ name_count) }
{
    Names::load(s, place(row, offset))
}

// The head of a field.
pub fn tag(s: &[u8], row: usize) -> u8
    requires { (row ≤ max_rows) × («place» row head_size ≤ length s.now) }
    ensures { result ≡ tag_of s.now row }
{
    byte(s, row, 0)
}

pub fn said_length(s: &[u8], row: usize) -> usize
    requires { (row ≤ max_rows) × («place» row head_size ≤ length s.now) }
    ensures { (result ≡ length_of s.now row) × (result < 256 ^ number_size) }
{
    number(s, row, LENGTH_AT)
}

// Whether the end field stands at a place of a file that stops there.
#[tactic(auto, unfolding(table::specs::Fields::ends_at))]
pub fn ends_at(s: &[u8], at: usize) -> bool
    ensures { result ≡ ends_at s.now at }
{
    if s.len() < END_SIZE {
        return false;
    }
    if s.len() - END_SIZE != at {
        return false;
    }
    let tag = s[at];
    match tag {
        END_TAG => load16(s, at + LENGTH_AT) as usize == END_LENGTH,
        0..=0x2E | 0x30..=0xFF => false,
    }
}

// Writes the end field at a place.
#[tactic(auto, unfolding(table::specs::Fields::end_bytes, table::specs::Number::be_bytes))]
pub fn write_end(out: &mut [u8], at: usize)
    requires { at + end_size ≤ length out.old }
    ensures { out.new ≡ put out.old at end_bytes }
{
    let length = number_bytes(END_LENGTH);
    copy_in(out, at, &[END_TAG, length[0], length[1]]);
}

// The value of a row.
pub fn parent(s: &[u8], row: usize) -> usize
    requires { HasRow s.now row }
    ensures { (result ≡ parent_of s.now row) × (result < 256 ^ number_size) }
{
    number(s, row, PARENT_AT)
}

pub fn kind(s: &[u8], row: usize) -> u8
    requires { HasRow s.now row }
    ensures { result ≡ kind_of s.now row }
{
    byte(s, row, KIND_AT)
}

pub fn role(s: &[u8], row: usize) -> u8
    requires { HasRow s.now row }
    ensures { result ≡ role_of s.now row }
{
    byte(s, row, ROLE_AT)
}

pub fn impossible(s: &[u8], row: usize) -> u8
    requires { HasRow s.now row }
    ensures { result ≡ impossible_of s.now row }
{
    byte(s, row, IMPOSSIBLE_AT)
}

pub fn wanted(s: &[u8], row: usize) -> Names
    requires { HasRow s.now row }
    ensures { (set_of result ≡ wanted_of s.now row) × (set_of result < 2 ^ name_count) }
{
    names(s, row, WANTED_AT)
}

pub fn excluded(s: &[u8], row: usize) -> Names
    requires { HasRow s.now row }
    ensures { (set_of result ≡ excluded_of s.now row) × (set_of result < 2 ^ name_count) }
{
    names(s, row, EXCLUDED_AT)
}
