// The verdict as lines, gathered in a buffer.
ghost use Rattle.std.specs.Prelude.{◌+◌, ◌≤◌, length};
ghost use Rattle.verdict_lines.specs.Gathering.{Added, Front, MapIn, Told, output_size};
ghost use Rattle.verdict_lines.specs.Lines.{map_line, map_lines, map_rows, output, refusal_line, refused_input};

use crate::text::{put_number, put_text};
use map_writer::layout::image;
use picture::answer::{Input, Refusal};
use subsumption::verdict::Verdict;
use table::layout::{END_SIZE, HEAD_SIZE, NUMBER_SIZE};

// A row and its image.
fn put_row(out: &mut [u8], at: usize, row: usize, image: usize) -> usize
    requires { at + length (map_line row image) ≤ length out.old }
    ensures { Added out.old at (map_line row image) result out.new }
{
    let next = put_number(out, at, row as u64, b' ');
    put_number(out, next, image as u64, b'\n')
}

// A line for each row of the second normal table, from its image in a map of n bytes.
fn put_map(out: &mut [u8], at: usize, e: &[u8], n: usize) -> usize
    requires { (at + length (map_lines e.now (map_rows n)) ≤ length out.old) × MapIn e.now n }
    ensures { Added out.old at (map_lines e.now (map_rows n)) result out.new }
{
    let rows = (n - HEAD_SIZE - END_SIZE) / NUMBER_SIZE;
    let mut end = at;
    for row in 0..rows {
        end = put_row(out, end, row, image(e, row));
    }
    end
}

// Which picture is refused.
fn put_input(out: &mut [u8], input: Input) -> usize
    requires { output_size ≤ length out.old }
    ensures { Added out.old 0 (refused_input input) result out.new }
{
    match input {
        Input::First => put_text(out, 0, b"refused first "),
        Input::Buffer
        | Input::Second
        | Input::Evidence
        | Input::Book
        | Input::Card(_)
        | Input::Definitions
        | Input::Definition(_) => { put_text(out, 0, b"refused second ") }
    }
}

// The refusal of a picture, with the row and the byte where its field begins.
fn put_refusal(out: &mut [u8], input: Input, question: u8, row: u16, byte: u16) -> usize
    requires { output_size ≤ length out.old }
    ensures { Front out.new (refusal_line input question row byte) result }
{
    let named = put_input(out, input);
    let asked = put_number(out, named, question as u64, b' ');
    let at_row = put_number(out, asked, row as u64, b' ');
    put_number(out, at_row, byte as u64, b'\n')
}

// All lines of a verdict whose evidence stands in a result buffer, from the first byte on; their length.
pub fn gather(verdict: Result<Verdict, Refusal>, res: &[u8], out: &mut [u8]) -> usize
    requires { (output_size ≤ length out.old) × Told verdict res.now }
    ensures { Front out.new (output verdict res.now) result }
{
    match verdict {
        Ok(Verdict::Yes(n)) => {
            let first = put_text(out, 0, b"verdict yes\n");
            put_map(out, first, res, n)
        }
        Ok(Verdict::No(_)) => put_text(out, 0, b"verdict no\n"),
        Err(refusal) => {
            let input = refusal.input;
            put_refusal(out, input, refusal.number, refusal.row, refusal.byte)
        }
    }
}
