// The tables of the unfolded cards while these are compared: each is kept in the cache or, where that has had no room
// for it, made anew in a part of the work space.
ghost use Rattle.std.specs.Prelude.{List, ◌≡◌, ◌+◌, ◌≤◌, ◌<◌, ℕ, length};
ghost use Rattle.table.specs.Bounds.{Bounded, max_rows, picture_size};
ghost use Rattle.table.specs.Layout.{end_size, «place»};
ghost use Rattle.table_rows.specs.Links.{Zeros};
ghost use Rattle.book.specs.Form.{«card», card_count, most_cards};
ghost use Rattle.under.specs.Book.{unfolded_book};
ghost use Rattle.book_tables.specs.Cache.{Cached, TableAt};
ghost use Rattle.book_tables.specs.Tables.{TakenUnder};
ghost use Rattle.book_selection.specs.Standing.{Checkable, Comparable, Inside, Stands, bytes_at};

use book_form::form::{card, find_cards};
use book_tables::cache::{Cache, Span};
use definition_parts::opened::Tbox;
use definitions_reader::index::index_of;
use field_places::places::{BookKind, find_fields};
use normal_writer::write::table_at;
use row_sets::linked::Table;
use row_sets::rows::LINKS;
use table::layout::Limits;
use unfold_tables::tables::unfolded_table;

// Where a card's table is: in the cache, or at the start of a part, of so many rows.
#[derive(Clone, Copy)]
pub enum Spot {
    Kept(Span),
    Made(usize),
}

// The bytes of the table there.
pub fn spot_table<'a>(cache: &'a Cache, part: &'a [u8], spot: Spot) -> &'a [u8]
    requires { Inside cache.now part.now spot }
    ensures { result.now ≡ bytes_at cache.now part.now spot }
{
    match spot {
        Spot::Kept(span) => table_at(cache.tables, span.start, span.rows),
        Spot::Made(rows) => table_at(part, 0, rows),
    }
}

// The table there, with its links.
pub fn table_of<'a>(
    cache: &'a Cache,
    part: &'a [u8],
    spot: Spot,
    links: &'a mut [u8; LINKS],
) -> Table<'a>
    requires checkable { Checkable cache.now part.now spot }
    requires empty { Zeros (max_rows + max_rows) links.old }
    ensures { result.bytes.now ≡ bytes_at cache.now part.now spot }
{
    let table = spot_table(cache, part, spot);
    match spot {
        Spot::Kept(span) => Table::new(table, span.rows, links),
        Spot::Made(rows) => Table::new(table, rows, links),
    }
}

// Makes the table of card k, unfolded, at the start of a lent part, and gives its rows. The card and the definitions
// are looked for in the books anew, which costs little beside making the table.
fn make_table(tbox: &[u8], book: &[u8], k: usize, limits: Limits, out: &mut [u8]) -> usize
    requires bounded { Bounded limits }
    requires taken { TakenUnder limits tbox.now book.now }
    requires below { k < card_count book.now }
    requires room { picture_size limits ≤ length out.old }
    ensures { TableAt limits («card» (unfolded_book limits tbox.now book.now) k) out.new result }
{
    let cards = find_cards(book);
    let fields = find_fields(tbox, BookKind::Definitions);
    let found = index_of(tbox, fields);
    let index = found.as_ref().unwrap();
    let opened = Tbox {
        bytes: tbox,
        starts: &index.starts,
        defined: index.defined,
    };
    unfolded_table(card(book, cards, k), &opened, limits, out)
}

// Where card k's table is; if it is not kept it is made in a lent part.
pub fn find_table(
    tbox: &[u8],
    book: &[u8],
    k: usize,
    limits: Limits,
    cache: &Cache,
    part: &mut [u8],
) -> Spot
    requires known { Comparable limits tbox.now book.now cache.now }
    requires below { k < card_count book.now }
    requires room { picture_size limits ≤ length part.old }
    ensures { Stands limits («card» (unfolded_book limits tbox.now book.now) k) cache.now part.new result }
{
    match cache.find(k) {
        Some(span) => Spot::Kept(span),
        None => Spot::Made(make_table(tbox, book, k, limits, part)),
    }
}

// Keeps the table of card k for the cards that come later, if it was made, and if it fits.
pub fn keep_made(cache: &mut Cache, k: usize, part: &[u8], spot: Spot)
    requires below { k < most_cards }
    requires inside { cache.old.end ≤ length cache.old.tables.now }
    requires whole { (rows : ℕ) → spot ≡ Spot.Made rows → (rows ≤ max_rows) × («place» rows end_size ≤ length part.now) }
    ensures same { (span : Span) → spot ≡ Spot.Kept span → cache.new ≡ cache.old }
    ensures same_reference { cache.new.tables.ghost_name ≡ cache.old.tables.ghost_name }
    ensures long { length cache.new.tables.now ≡ length cache.old.tables.now }
    ensures cached { (limits : Limits) (book : List ℕ) → Cached limits book cache.old
        → Stands limits («card» book k) cache.old part.now spot
        → Cached limits book cache.new × Stands limits («card» book k) cache.new part.now spot }
{
    if let Spot::Made(rows) = spot {
        cache.keep(k, part, rows);
    }
}

#[cfg(test)]
mod tests {
    use super::*;

    // Whoever lent an array has it again, with the table that was kept.
    #[test]
    fn array_comes_back(rt: HostRuntime) {
        let part = [7u8; 100];
        let mut tables = [0u8; 100];
        let mut cache = Cache::new(&mut tables);
        keep_made(&mut cache, 3, &part, Spot::Made(1));
        assert!(rt; cache.find(3).is_some());
        assert_eq!(rt; tables[0], 7);
        assert_eq!(rt; tables[99], 0);
    }
}
