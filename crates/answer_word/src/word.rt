// The answer word.
ghost use Rattle.std.specs.Prelude.{◌≡◌, ◌<◌, ◌≤◌};
ghost use Rattle.interface.specs.Word.{card_of, input_code, outcome_no, refusal_word, value_range, value_word};

use picture::answer::{Input, Refusal};

// The outcomes of an answer: a value, verdict yes or a map taken; verdict no or a refutation taken.
pub const YES: u64 = 1;

pub const NO: u64 = 2;

// Weights of the parts of a word.
const OUTCOME: u64 = 0x0100_0000_0000_0000;

const NUMBER: u64 = 0x0001_0000_0000_0000;

const INPUT: u64 = 0x0000_0100_0000_0000;

const CARD: u64 = 0x0000_0001_0000_0000;

const ROW: u64 = 0x0000_0000_0001_0000;

pub fn value_word(outcome: u64, value: u64) -> u64
    requires { (outcome ≤ outcome_no) × (value < value_range) }
    ensures { result ≡ value_word outcome value }
{
    outcome * OUTCOME + value
}

fn input_code(input: Input) -> u8
    ensures { result ≡ input_code input }
{
    match input {
        Input::Buffer => 0,
        Input::First => 1,
        Input::Second => 2,
        Input::Evidence => 3,
        Input::Book => 4,
        Input::Card(_) => 5,
        Input::Definitions => 6,
        Input::Definition(_) => 7,
    }
}

fn card_of(input: Input) -> u8
    ensures { result ≡ card_of input }
{
    match input {
        Input::Buffer => 0,
        Input::First => 0,
        Input::Second => 0,
        Input::Evidence => 0,
        Input::Book => 0,
        Input::Card(card) => card,
        Input::Definitions => 0,
        Input::Definition(definition) => definition,
    }
}

pub fn refusal_word(refusal: Refusal) -> u64
    ensures { result ≡ refusal_word refusal }
{
    let input = refusal.input;
    let number = refusal.number;
    let code = input_code(input);
    let card = card_of(input);
    let row = refusal.row;
    let byte = refusal.byte;
    (number as u64) * NUMBER
        + (code as u64) * INPUT
        + (card as u64) * CARD
        + (row as u64) * ROW
        + (byte as u64)
}
