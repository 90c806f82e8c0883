// Questions 3, 4 and 9 to 13: what each asks of a tag, or of a row.
ghost use Rattle.std.specs.Prelude.{◌≡◌, true};
ghost use Rattle.table.specs.Fields.{parent_of, kind_of, role_of, impossible_of};
ghost use Rattle.table_rows.specs.Rows.{HasRow};
ghost use Rattle.picture.specs.Depth.{depth};
ghost use Rattle.picture_questions.specs.Depths.{Known};
ghost use Rattle.picture.specs.Questions.{tag_ok, length_for, kind_ok, role_ok, parent_ok, impossible_ok};

use table::layout::{
    END_LENGTH, END_TAG, KIND_EXISTS, KIND_FOR_ALL, KIND_ROOT, MAX_ROWS, ROLES, ROW_LENGTH, ROW_TAG,
};
use table_rows::row::{impossible, kind, parent, role};

// 3
#[tactic(auto, unfolding(picture::specs::Questions::tag_ok))]
pub fn tag_ok(tag: u8) -> bool
    ensures { result ≡ tag_ok tag }
{
    match tag {
        ROW_TAG => true,
        END_TAG => true,
        0..=0x0F | 0x11..=0x2E | 0x30..=0xFF => false,
    }
}

// The length that 4 asks for; by then 3 has left two tags.
#[tactic(auto, unfolding(picture::specs::Questions::length_for))]
pub fn length_for(tag: u8) -> usize
    ensures { result ≡ length_for tag }
{
    match tag {
        ROW_TAG => ROW_LENGTH,
        0..=0x0F | 0x11..=0xFF => END_LENGTH,
    }
}

// 9
#[tactic(auto, unfolding(picture::specs::Questions::kind_ok))]
pub fn kind_ok(s: &[u8], n: usize) -> bool
    requires { HasRow s.now n }
    ensures { result ≡ kind_ok n (kind_of s.now n) }
{
    let kind = kind(s, n);
    if n == 0 {
        match kind {
            KIND_ROOT => true,
            1..=0xFF => false,
        }
    } else {
        match kind {
            KIND_EXISTS => true,
            KIND_FOR_ALL => true,
            0 | 3..=0xFF => false,
        }
    }
}

// 10
#[tactic(auto, unfolding(picture::specs::Questions::role_ok))]
pub fn role_ok(s: &[u8], n: usize) -> bool
    requires { HasRow s.now n }
    ensures { result ≡ role_ok n (role_of s.now n) }
{
    let role = role(s, n);
    if n == 0 { role == 0 } else { role < ROLES }
}

// 11
#[tactic(auto, unfolding(picture::specs::Questions::parent_ok))]
pub fn parent_ok(s: &[u8], n: usize) -> bool
    requires { HasRow s.now n }
    ensures { result ≡ parent_ok n (parent_of s.now n) }
{
    let parent = parent(s, n);
    if n == 0 { parent == 0 } else { parent < n }
}

// The depth of row n, from its parent's.
pub fn depth_at(s: &[u8], n: usize, depths: &[u8; MAX_ROWS]) -> usize
    requires { (HasRow s.now n) × ((Known s.now n depths.now) × (parent_ok n (parent_of s.now n) ≡ true)) }
    ensures { result ≡ depth (parent_of s.now) n }
{
    if n == 0 {
        return 0;
    }
    let parent = parent(s, n);
    usize::from(depths[parent]) + 1
}

// 13
pub fn impossible_ok(s: &[u8], n: usize) -> bool
    requires { HasRow s.now n }
    ensures { result ≡ impossible_ok (impossible_of s.now n) }
{
    impossible(s, n) <= 1
}
