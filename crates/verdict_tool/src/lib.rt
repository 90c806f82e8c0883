#![tactic(auto)]

// The verdict program: reads two pictures, and prints whether the second covers the first. It is a library, so that
// programs with files of their own can run it.
mod load;

ghost use Rattle.std.specs.Prelude.{◌≤◌, length};
ghost use Rattle.verdict_lines.specs.Gathering.{Front, output_size};
ghost use Rattle.verdict_lines.specs.Lines.{printed};
ghost use Rattle.verdict_tool.specs.Lengths.{Lengths};

use crate::load::{PICTURE, load};
use refutation_reader::layout::{INDIVIDUAL_SIZE, MAX_INDIVIDUALS};
use std::fs::Files;
use std::io::Print;
use subsumes::subsumes::subsumes;
use table::layout::{END_LENGTH, END_SIZE, END_TAG, Limits, MAX_ROWS, ROW_SIZE};
use verdict_lines::gather::gather;

// The length laid down for a work space: two tables.
const WORK: usize = 2 * (ROW_SIZE * MAX_ROWS + END_SIZE);

// That for a result buffer: the longest refutation, which is longer than any map.
const RESULT: usize = INDIVIDUAL_SIZE * MAX_INDIVIDUALS + END_SIZE;

// The definitions book without definitions: the end field alone.
const NO_DEFINITIONS: [u8; END_SIZE] = [END_TAG, 0, END_LENGTH as u8];

// verdict yes
const YES_LINE: usize = 12;

// 255 255: no row and no image has a greater number.
const MAP_LINE: usize = 8;

// The most bytes that are printed: a line for each row that a table can have.
const OUTPUT: usize = YES_LINE + MAP_LINE * MAX_ROWS;

// Puts the lines on two pictures at the start of a buffer; their length. It is lent a work space and a result buffer.
fn answer(first: &[u8], second: &[u8], work: &mut [u8], res: &mut [u8], out: &mut [u8]) -> usize
    requires { Lengths (length work.old) (length res.old) (length out.old) }
    ensures { Front out.new (printed first.now second.now) result }
{
    let verdict = subsumes(&NO_DEFINITIONS, first, second, Limits::bench(), work, res);
    gather(verdict, res, out)
}

// The same, with a work space and a result buffer of its own.
fn decide(first: &[u8], second: &[u8], out: &mut [u8]) -> usize
    requires { output_size ≤ length out.old }
    ensures { Front out.new (printed first.now second.now) result }
{
    let mut work = [0u8; WORK];
    let mut result = [0u8; RESULT];
    answer(first, second, &mut work, &mut result, out)
}

// Prints the lines on the files with these names, by one write; nothing is said where they cannot be written.
pub fn run<R: Files + Print>(rt: &R, first_name: &[u8], second_name: &[u8]) {
    let mut first = [0u8; PICTURE];
    let n = load(rt, first_name, &mut first);
    let mut second = [0u8; PICTURE];
    let m = load(rt, second_name, &mut second);
    let mut out = [0u8; OUTPUT];
    let k = decide(&first[..n], &second[..m], &mut out);
    let _written = rt.write_all(&out[..k]).ok();
}
