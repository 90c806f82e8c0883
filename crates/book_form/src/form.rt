// The cards of a book: their places, 24, and a card.
ghost use Rattle.std.specs.Prelude.{◌≡◌, ◌<◌};
ghost use Rattle.field_places.specs.Places.{Placed};
ghost use Rattle.book.specs.Form.{book_form, «card», card_tag};

use field_places::places::{BookKind, Fields, MAX_FIELDS, find_fields, has_form, value};

pub const MAX_CARDS: usize = MAX_FIELDS;

pub fn find_cards(book: &[u8]) -> Fields
    ensures { Placed card_tag book.now result }
{
    find_fields(book, BookKind::Cards)
}

// 24
pub fn has_book_form(book: &[u8], cards: Fields) -> bool
    requires { Placed card_tag book.now cards }
    ensures { result ≡ book_form book.now }
{
    has_form(book, cards)
}

// Card k, as a part of the book.
pub fn card(book: &[u8], cards: Fields, k: usize) -> &[u8]
    requires { (Placed card_tag book.now cards) × (k < cards.count) }
    ensures { result.now ≡ «card» book.now k }
{
    value(book, cards, k)
}
