// What reading a picture, writing its normal table and writing the common picture of two answer, as a line.
use lcs_call::call::lcs;
use normalize_call::normalize::normalize;
use picture::answer::{Input, Refusal};
use picture_reader::read::read;
use std::io;
use std::io::Print;
use table::layout::{END_LENGTH, END_SIZE, END_TAG, Limits, MAX_ROWS, ROW_SIZE};

// The length laid down for a result buffer.
const RESULT: usize = ROW_SIZE * MAX_ROWS + END_SIZE;

// That of a work space: two halves.
const WORK: usize = 2 * RESULT;

// The definitions book without definitions: the end field alone.
const NO_DEFINITIONS: [u8; END_SIZE] = [END_TAG, 0, END_LENGTH as u8];

// The input that a refusal names.
fn input_name(input: Input) -> &'static str {
    match input {
        Input::Buffer => "buffer",
        Input::First => "first",
        Input::Second => "second",
        Input::Evidence => "evidence",
        Input::Book => "book",
        Input::Card(_) => "card",
        Input::Definitions => "definitions",
        Input::Definition(_) => "definition",
    }
}

// The end of the line of a refusal: the input, the question's number, and the row and the byte.
fn say_refused(rt: &impl Print, refusal: Refusal) -> io::Result<()> {
    let input = input_name(refusal.input);
    let number = refusal.number;
    let row = refusal.row;
    let byte = refusal.byte;
    println!(rt; ": refused {input} {number} row {row} byte {byte}")
}

fn tell_answer(rt: &impl Print, s: &[u8]) -> io::Result<()> {
    match read(s, Limits::bench(), Input::First) {
        Ok(n) => println!(rt; ": rows {n}"),
        Err(refusal) => say_refused(rt, refusal),
    }
}

// The picture is the first n bytes of s.
fn tell_first(rt: &impl Print, s: &[u8], n: usize) -> io::Result<()> {
    if n <= s.len() {
        tell_answer(rt, &s[..n])?;
    }
    Ok(())
}

pub fn tell(rt: &impl Print, label: &[u8], s: &[u8], n: usize) -> io::Result<()> {
    rt.write_all(label)?;
    tell_first(rt, s, n)
}

fn tell_normalized(rt: &impl Print, s: &[u8], out: &mut [u8]) -> io::Result<()> {
    match normalize(&NO_DEFINITIONS, s, Limits::bench(), out) {
        Ok(n) => println!(rt; ": length {n}"),
        Err(refusal) => say_refused(rt, refusal),
    }
}

// The picture is the first n bytes of s.
fn tell_first_normal(rt: &impl Print, s: &[u8], n: usize, out: &mut [u8]) -> io::Result<()> {
    if n <= s.len() {
        tell_normalized(rt, &s[..n], out)?;
    }
    Ok(())
}

pub fn tell_normal(rt: &impl Print, label: &[u8], s: &[u8], n: usize) -> io::Result<()> {
    let mut out = [0u8; RESULT];
    print!(rt; "normal table of ")?;
    rt.write_all(label)?;
    tell_first_normal(rt, s, n, &mut out)
}

pub fn tell_nested(rt: &impl Print, depth: u8, s: &[u8], n: usize) -> io::Result<()> {
    let mut out = [0u8; RESULT];
    print!(rt; "normal table of 003, Example 26, depth {depth}")?;
    tell_first_normal(rt, s, n, &mut out)
}

fn tell_least(rt: &impl Print, first: &[u8], second: &[u8]) -> io::Result<()> {
    let mut work = [0u8; WORK];
    let mut out = [0u8; RESULT];
    match lcs(
        &NO_DEFINITIONS,
        first,
        second,
        Limits::bench(),
        &mut work,
        &mut out,
    ) {
        Ok(n) => println!(rt; ": length {n}"),
        Err(refusal) => say_refused(rt, refusal),
    }
}

// The pictures are the first n bytes of s and the first m of t.
fn tell_first_least(rt: &impl Print, s: &[u8], n: usize, t: &[u8], m: usize) -> io::Result<()> {
    if n <= s.len() {
        if m <= t.len() {
            tell_least(rt, &s[..n], &t[..m])?;
        }
    }
    Ok(())
}

pub fn tell_common(
    rt: &impl Print,
    label: &[u8],
    s: &[u8],
    n: usize,
    t: &[u8],
    m: usize,
) -> io::Result<()> {
    print!(rt; "common picture of ")?;
    rt.write_all(label)?;
    tell_first_least(rt, s, n, t, m)
}
