#![tactic(auto)]

// Runs the cases of paper 01 that are too large to compute in a proof: the limits of the reader, of the merged table and
// of the common picture. A line for each: what the picture is, and the answer. Small pictures, each question at least
// once, are computed in picture/proofs/Cases.
mod make;
mod tell;

use crate::make::{alls, end, nested, row, rows, shared};
use crate::tell::{tell, tell_common, tell_nested, tell_normal};
use std::io;
use std::io::Print;
use table::layout::{END_SIZE, HEAD_SIZE, MAX_ROWS, ROW_SIZE};

// As many bytes as 257 rows and the end field take.
const SPACE: usize = ROW_SIZE * (MAX_ROWS + 1) + END_SIZE;

// A picture of so many rows, in a chain or under one root.
fn counted(rt: &impl Print, label: &[u8], count: usize, chain: bool) -> io::Result<()> {
    let mut s = [0u8; SPACE];
    let m = rows(&mut s, count, chain);
    let n = end(&mut s, m);
    tell(rt, label, &s, n)
}

// 5, and that it is asked before 6; 12.
fn sizes(rt: &impl Print) -> io::Result<()> {
    counted(rt, b"one empty row", 1, false)?;
    counted(rt, b"256 rows", 256, false)?;
    counted(rt, b"257 rows", 257, false)?;
    let mut s = [0u8; SPACE];
    let n = rows(&mut s, 256, false);
    row(&mut s, n, 0, 1, 8, 0);
    tell(
        rt,
        b"257 rows, the last cut after its head",
        &s,
        n + HEAD_SIZE,
    )?;
    counted(rt, b"depth 12", 13, true)?;
    counted(rt, b"depth 13", 14, true)
}

// The normal table of a picture of so many rows, in a chain or under one root.
fn normal_counted(rt: &impl Print, label: &[u8], count: usize, chain: bool) -> io::Result<()> {
    let mut s = [0u8; SPACE];
    let m = rows(&mut s, count, chain);
    let n = end(&mut s, m);
    tell_normal(rt, label, &s, n)
}

// That of one all r with so many some s, and so many some r.
fn normal_shared(rt: &impl Print, label: &[u8], below: usize, beside: usize) -> io::Result<()> {
    let mut s = [0u8; SPACE];
    let m = shared(&mut s, below, beside);
    let n = end(&mut s, m);
    tell_normal(rt, label, &s, n)
}

// Pictures at the limits.
fn normals(rt: &impl Print) -> io::Result<()> {
    let mut s = [0u8; SPACE];
    normal_counted(rt, b"one empty row", 1, false)?;
    normal_counted(rt, b"256 rows", 256, false)?;
    normal_counted(rt, b"257 rows", 257, false)?;
    normal_counted(rt, b"depth 12", 13, true)?;
    normal_counted(rt, b"depth 13", 14, true)?;
    let m = alls(&mut s, 255);
    let k = end(&mut s, m);
    tell_normal(rt, b"255 all r", &s, k)
}

// 14: what is shared by an all-successor is counted for each some-successor, before dropping.
fn merged(rt: &impl Print) -> io::Result<()> {
    normal_shared(rt, b"one all r with 16 some s, and 14 some r", 16, 14)?;
    normal_shared(rt, b"one all r with 15 some s, and 15 some r", 15, 15)?;
    normal_shared(rt, b"one all r, and 254 some r", 0, 254)
}

// That of 003, Example 26, so many edges deep.
fn normal_nested(rt: &impl Print, depth: u8) -> io::Result<()> {
    let mut s = [0u8; SPACE];
    let m = nested(&mut s, depth);
    let n = end(&mut s, m);
    tell_nested(rt, depth, &s, n)
}

// 14: merged, each depth has three times the rows of the one before and one more.
fn nestings(rt: &impl Print) -> io::Result<()> {
    for depth in 1..13u8 {
        normal_nested(rt, depth)?;
    }
    Ok(())
}

// The common picture of two pictures of so many rows, all under the root by one role.
fn common_counted(rt: &impl Print, label: &[u8], one: usize, other: usize) -> io::Result<()> {
    let mut s = [0u8; SPACE];
    let a = rows(&mut s, one, false);
    let n = end(&mut s, a);
    let mut t = [0u8; SPACE];
    let b = rows(&mut t, other, false);
    let m = end(&mut t, b);
    tell_common(rt, label, &s, n, &t, m)
}

// 15: each some-successor of the first is paired with each of the second.
fn commons(rt: &impl Print) -> io::Result<()> {
    common_counted(rt, b"15 some r with 17 some r", 16, 18)?;
    common_counted(rt, b"16 some r with 16 some r", 17, 17)?;
    common_counted(rt, b"255 some r with one empty row", 256, 1)
}

fn main(rt: HostRuntime) -> io::Result<()> {
    sizes(&rt)?;
    normals(&rt)?;
    merged(&rt)?;
    nestings(&rt)?;
    commons(&rt)
}
