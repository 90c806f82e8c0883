// The refusal of every call, which is made here: what a call answers is a `Result` with it.
ghost use Rattle.std.specs.Prelude.{◌≡◌, ◌≤◌};
ghost use Rattle.table.specs.Bounds.{max_rows};
ghost use Rattle.picture.specs.Refusal.{refusal, refusal_at, short_buffer, too_many};

use table::layout::place;

// Which input a refusal concerns. The cards of a card book are numbered from 0, and so are the definitions of a
// definitions book.
#[derive(Clone, Copy, PartialEq, Eq, Debug)]
pub enum Input {
    Buffer,
    First,
    Second,
    Evidence,
    Book,
    Card(u8),
    Definitions,
    Definition(u8),
}

// The number of the question that was answered no, and the input it concerns; where a field of a picture is refused (2
// to 13), the rows before it and the byte where it begins, from the picture's first, else 0 and 0.
#[derive(Clone, Copy, PartialEq, Eq, Debug)]
pub struct Refusal {
    pub number: u8,
    pub input: Input,
    pub row: u16,
    pub byte: u16,
}

// Of no field: 1, and 14 to 30.
pub fn refuse(number: u8, input: Input) -> Refusal
    ensures { result ≡ refusal number input }
{
    Refusal {
        number,
        input,
        row: 0,
        byte: 0,
    }
}

// Of the field after so many rows of a picture: 2 to 13.
pub fn refuse_at(number: u8, input: Input, row: usize) -> Refusal
    requires { row ≤ max_rows }
    ensures { result ≡ refusal_at number input row }
{
    let byte = place(row, 0);
    Refusal {
        number,
        input,
        row: row as u16,
        byte: byte as u16,
    }
}

// 1: a buffer lent for writing is shorter than the length named.
pub fn short_buffer() -> Refusal
    ensures { result ≡ short_buffer }
{
    refuse(1, Input::Buffer)
}

// 14: a merged table has more rows than allowed.
pub fn too_many(input: Input) -> Refusal
    ensures { result ≡ too_many input }
{
    refuse(14, input)
}
