// The cards of a word, lowest first.
ghost use Rattle.std.specs.Prelude.{◌≡◌, ◌-◌, ◌≤◌};
ghost use Rattle.std.specs.Iterator.{at_most};
ghost use Rattle.book.specs.Form.{most_cards};
ghost use Rattle.book_selection.specs.Next.{NextCard};

use book_form::form::MAX_CARDS;
use row_sets::rows::next_bit;

// The first card of a word from one on; past all cards if there is none.
pub fn next_card(word: u32, from: usize) -> usize
    requires { from ≤ most_cards }
    ensures { NextCard word from result }
{
    next_bit(word as u64, from)
}

// Those of a word, from one on.
#[derive(Clone, Copy)]
pub struct Cards {
    pub word: u32,
    pub from: usize,
    pub ghost within: { from ≤ most_cards },
}

pub fn cards_of(word: u32) -> Cards
    ensures word { result.word ≡ word }
    ensures from { result.from ≡ 0 }
{
    Cards { word, from: 0 }
}

impl Iterator for Cards {
    type Item = usize;

    ghost use Rattle.book_selection.specs.Walk.{CardStep};

    ghost next_gives = { CardStep };

    ghost remaining = { λ c. at_most (most_cards - c.from) };

    fn next(&mut self) -> Option<usize> {
        let card = next_card(self.word, self.from);
        if MAX_CARDS <= card {
            return None;
        }
        self.from = card + 1;
        Some(card)
    }
}
