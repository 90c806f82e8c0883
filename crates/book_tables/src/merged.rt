// 14 of the case, then of each card in turn, unfolded, before any table is made.
ghost use Rattle.std.specs.Prelude.{◌≡◌};
ghost use Rattle.picture.specs.Asked.{and_then, asked_from};
ghost use Rattle.normal.specs.Call.{merged_asked};
ghost use Rattle.definitions.specs.Unfolded.{unfolded_file};
ghost use Rattle.under.specs.Asked.{card_few};
ghost use Rattle.book_tables.specs.Tables.{AllRead, CardsRead};

use book_form::form::card;
use definition_parts::opened::Tbox;
use field_places::places::Fields;
use picture::answer::{Input, Refusal, too_many};
use table::layout::Limits;
use unfold_tables::tables::is_unfolded_within;

// 14 of each card in turn.
fn ask_cards(tbox: &Tbox<'_>, book: &[u8], cards: Fields, limits: Limits) -> Result<(), Refusal>
    requires { CardsRead limits tbox.now book.now cards }
    ensures { result ≡ asked_from (card_few limits tbox.now.bytes.now book.now) cards.count 0 }
{
    for k in 0..cards.count {
        if !is_unfolded_within(card(book, cards, k), tbox, limits) {
            return Err(too_many(Input::Card(k as u8)));
        }
    }
    Ok(())
}

// 14 of the case, and then those. Nothing is lent for writing here, so that a refusal writes nothing.
pub fn ask_merged(
    tbox: &Tbox<'_>,
    case: &[u8],
    book: &[u8],
    cards: Fields,
    limits: Limits,
) -> Result<(), Refusal>
    requires { AllRead limits tbox.now case.now book.now cards }
    ensures { result ≡ and_then
        (merged_asked limits Input.First (unfolded_file limits tbox.now.bytes.now case.now))
        (asked_from (card_few limits tbox.now.bytes.now book.now) cards.count 0) }
{
    if !is_unfolded_within(case, tbox, limits) {
        return Err(too_many(Input::First));
    }
    ask_cards(tbox, book, cards, limits)
}
