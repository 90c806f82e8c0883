// Pictures, as bytes. Each function gives the place after what it wrote; those that go byte by byte write nothing where
// there is no room.
ghost use Rattle.std.specs.Prelude.{◌≤◌, length};

use table::layout::{
    END_SIZE, END_TAG, KIND_EXISTS, KIND_FOR_ALL, KIND_ROOT, ROW_LENGTH, ROW_SIZE, ROW_TAG,
};
use table::number::copy_in;

// A row whose wanted names are among names 0 to 7.
pub fn row(out: &mut [u8], at: usize, parent: usize, kind: u8, role: u8, wanted: u8) -> usize
    requires { at ≤ length out.old }
    ensures { result ≤ length out.new }
{
    if out.len() - at < ROW_SIZE {
        return at;
    }
    let head = [
        ROW_TAG,
        0,
        ROW_LENGTH as u8,
        (parent / 256 % 256) as u8,
        (parent % 256) as u8,
        kind,
        role,
        0,
        0,
        0,
        0,
        0,
        0,
        0,
        0,
        wanted,
    ];
    copy_in(out, at, &head);
    at + ROW_SIZE
}

pub fn end(out: &mut [u8], at: usize) -> usize
    requires { at ≤ length out.old }
    ensures { result ≤ length out.new }
{
    if out.len() - at < END_SIZE {
        return at;
    }
    let head = [END_TAG, 0, 0];
    copy_in(out, at, &head);
    at + END_SIZE
}

// The parent of a later row: in a chain the row before it, else the root.
fn parent_of(n: usize, chain: bool) -> usize {
    if chain && 0 < n { n - 1 } else { 0 }
}

// A root with rows below it, each under the one before or all under the root.
pub fn rows(out: &mut [u8], count: usize, chain: bool) -> usize
    ensures { result ≤ length out.new }
{
    let mut at = row(out, 0, 0, KIND_ROOT, 0, 0);
    for n in 1..count {
        at = row(out, at, parent_of(n, chain), KIND_EXISTS, 8, 0);
    }
    at
}

// So many successors of one row, by an edge of a kind and role.
fn successors(out: &mut [u8], at: usize, parent: usize, kind: u8, role: u8, count: usize) -> usize
    requires { at ≤ length out.old }
    ensures { result ≤ length out.new }
{
    let mut to = at;
    for _ in 0..count {
        to = row(out, to, parent, kind, role, 0);
    }
    to
}

// So many all r.
pub fn alls(out: &mut [u8], count: usize) -> usize
    ensures { result ≤ length out.new }
{
    let at = row(out, 0, 0, KIND_ROOT, 0, 0);
    successors(out, at, 0, KIND_FOR_ALL, 8, count)
}

// One all r with so many some s, and so many some r.
pub fn shared(out: &mut [u8], below: usize, beside: usize) -> usize
    ensures { result ≤ length out.new }
{
    let root = row(out, 0, 0, KIND_ROOT, 0, 0);
    let all = row(out, root, 0, KIND_FOR_ALL, 8, 0);
    let at = successors(out, all, 1, KIND_EXISTS, 9, below);
    successors(out, at, 0, KIND_EXISTS, 8, beside)
}

// some r{0}, some r{1}.
fn pair(out: &mut [u8], at: usize, parent: usize) -> usize
    requires { at ≤ length out.old }
    ensures { result ≤ length out.new }
{
    let first = row(out, at, parent, KIND_EXISTS, 8, 1);
    row(out, first, parent, KIND_EXISTS, 8, 2)
}

// 003, Example 26: some r{0}, some r{1}, and all r with the same one edge deeper, so many edges deep.
pub fn nested(out: &mut [u8], depth: u8) -> usize
    ensures { result ≤ length out.new }
{
    let root = row(out, 0, 0, KIND_ROOT, 0, 0);
    let mut at = pair(out, root, 0);
    for level in 1..depth {
        let parent = 3 * (level as usize);
        let all = row(out, at, parent - 3, KIND_FOR_ALL, 8, 0);
        at = pair(out, all, parent);
    }
    at
}
