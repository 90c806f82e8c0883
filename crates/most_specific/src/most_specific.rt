// The sixth call: question 1, the case, the book's form, its cards, the definitions book, 14 of each, unfolded, and the
// word of the most specific cards.
ghost use Rattle.std.specs.Prelude.{◌≡◌, ◌≤◌, length};
ghost use Rattle.table.specs.Bounds.{Bounded};
ghost use Rattle.table.specs.Put.{zeros};
ghost use Rattle.workspace.specs.Prepare.{work_size};
ghost use Rattle.picture.specs.Asked.{asked_from};
ghost use Rattle.book.specs.Call.{card_read};
ghost use Rattle.book.specs.Form.{card_tag};
ghost use Rattle.field_places.specs.Places.{Placed};
ghost use Rattle.under.specs.Book.{most_specific_under, most_specific_work_under};
ghost use Rattle.book_tables.specs.Cache.{Findable};
ghost use Rattle.book_tables.specs.Tables.{AllRead};
ghost use Rattle.most_specific.specs.Asking.{BookRoom, CardsRoom, Left, word_under};
ghost use Rattle.most_specific.specs.Asking.{after_cards, after_case, after_definitions};

use book_form::form::{card, find_cards, has_book_form};
use book_selection::compare::select_cards;
use book_tables::cache::{Cache, TABLES};
use book_tables::merged::ask_merged;
use book_tables::subsumers::find_subsumers;
use definition_parts::opened::Tbox;
use definitions_asked::ask::open_definitions;
use definitions_asked::lots::Lot;
use field_places::places::Fields;
use picture::answer::{Input, Refusal, refuse, short_buffer};
use picture_reader::read::read;
use prepare_pair::prepare::half_size;
use table::layout::Limits;

// 2 to 13 of each card in turn.
fn read_cards(book: &[u8], cards: Fields, limits: Limits) -> Result<(), Refusal>
    requires { (Bounded limits) × (Placed card_tag book.now cards) }
    ensures { result ≡ asked_from (card_read limits book.now) cards.count 0 }
{
    for k in 0..cards.count {
        read(card(book, cards, k), limits, Input::Card(k as u8))?;
    }
    Ok(())
}

// The word, once 14 is answered yes for all; the work space is cleared.
fn specific_cards(
    tbox: &Tbox<'_>,
    case: &[u8],
    book: &[u8],
    cards: Fields,
    limits: Limits,
    work: &mut [u8],
) -> u32
    requires { Findable limits tbox.now case.now book.now cards work.old }
    ensures { (result ≡ word_under limits tbox.now.bytes.now case.now book.now)
        × (work.new ≡ zeros (work_size limits)) }
{
    let mut tables = [0u8; TABLES];
    let mut cache = Cache::new(&mut tables);
    let word = find_subsumers(tbox, case, book, cards, limits, work, &mut cache);
    select_cards(tbox.bytes, book, limits, &mut cache, word, work)
}

// 14 of the case and of each card; then the word.
fn select(
    tbox: &Tbox<'_>,
    case: &[u8],
    book: &[u8],
    cards: Fields,
    limits: Limits,
    work: &mut [u8],
) -> Result<u32, Refusal>
    requires { (AllRead limits tbox.now case.now book.now cards) × (work_size limits ≤ length work.old) }
    ensures { Left limits (word_under limits tbox.now.bytes.now case.now book.now)
        work.old (after_definitions limits tbox.now.bytes.now case.now book.now) result
        work.new }
{
    let half = half_size(limits);
    let size = half + half;
    ask_merged(tbox, case, book, cards, limits)?;
    Ok(specific_cards(tbox, case, book, cards, limits, &mut work[..size]))
}

// What is asked of the definitions book, and of the case and the cards under it, and what comes after that.
fn ask_definitions(
    tbox: &[u8],
    case: &[u8],
    book: &[u8],
    cards: Fields,
    limits: Limits,
    work: &mut [u8],
) -> Result<u32, Refusal>
    requires { CardsRoom limits case.now book.now cards work.old }
    ensures { Left limits (word_under limits tbox.now case.now book.now)
        work.old (after_cards limits tbox.now case.now book.now) result
        work.new }
{
    let found = open_definitions(tbox, case, &Lot::Cards(book, cards), limits);
    match &found {
        Ok(index) => {
            let opened = Tbox {
                bytes: tbox,
                starts: &index.starts,
                defined: index.defined,
            };
            select(&opened, case, book, cards, limits, work)
        }
        Err(refusal) => Err(*refusal),
    }
}

// 24, the cards, and what comes after them.
fn ask_book(
    tbox: &[u8],
    case: &[u8],
    book: &[u8],
    limits: Limits,
    work: &mut [u8],
) -> Result<u32, Refusal>
    requires { BookRoom limits case.now work.old }
    ensures { Left limits (word_under limits tbox.now case.now book.now)
        work.old (after_case limits tbox.now case.now book.now) result
        work.new }
{
    let cards = find_cards(book);
    if !has_book_form(book, cards) {
        return Err(refuse(24, Input::Book));
    }
    read_cards(book, cards, limits)?;
    ask_definitions(tbox, case, book, cards, limits, work)
}

// The call: 1; the case; the book. Nothing is written before 14 is answered yes for all.
pub fn most_specific(
    tbox: &[u8],
    case: &[u8],
    book: &[u8],
    limits: Limits,
    work: &mut [u8],
) -> Result<u32, Refusal>
    requires { Bounded limits }
    ensures { (result ≡ most_specific_under limits tbox.now case.now book.now
        (length work.old))
        × (work.new ≡ most_specific_work_under limits tbox.now case.now book.now
        work.old) }
{
    let half = half_size(limits);
    if work.len() < half + half {
        return Err(short_buffer());
    }
    read(case, limits, Input::First)?;
    ask_book(tbox, case, book, limits, work)
}
