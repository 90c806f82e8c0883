// Which cards cover the case, all of them unfolded. 14 is answered yes for all, so tables are made in the work space:
// the case's in its first half, each card's in the second. That of a covering card is kept, if it fits.
ghost use Rattle.std.specs.Prelude.{◌≡◌, ◌≤◌, length};
ghost use Rattle.table.specs.Layout.{end_size, «place»};
ghost use Rattle.row_sets.specs.Rows.{Checked};
ghost use Rattle.homomorphism_search.specs.Search.{row_maps};
ghost use Rattle.normal_writer.specs.Tables.{table_in};
ghost use Rattle.table.specs.NameSet.{set_below};
ghost use Rattle.book.specs.Selection.{case_covered};
ghost use Rattle.definitions.specs.Unfolded.{unfolded_file};
ghost use Rattle.under.specs.Book.{unfolded_book};
ghost use Rattle.book_tables.specs.Tables.{covers_table};
ghost use Rattle.book_tables.specs.Cache.{Cached, CardsTestable, Findable};

use crate::cache::Cache;
use crate::covering::table_covers;
use book_form::form::card;
use book_form::word::bit;
use definition_parts::opened::Tbox;
use field_places::places::Fields;
use normal_writer::write::table_at;
use prepare_pair::prepare::half_size;
use row_sets::linked::Table;
use row_sets::rows::LINKS;
use table::layout::Limits;
use unfold_tables::tables::unfolded_table;

// Whether the card whose table of so many rows begins a part covers the case.
fn covers_case(case: &Table, part: &[u8], rows: usize, depth: usize) -> bool
    requires whole { «place» rows end_size ≤ length part.now }
    requires checked { Checked (table_in part.now 0 rows) rows }
    ensures { result ≡ row_maps case.now.bytes.now (table_in part.now 0 rows) depth 0 0 }
{
    let mut links = [0u8; LINKS];
    let table = Table::new(table_at(part, 0, rows), rows, &mut links);
    table_covers(case, &table, depth)
}

// Whether each card in turn covers the case.
fn test_cards(
    tbox: &Tbox<'_>,
    book: &[u8],
    cards: Fields,
    limits: Limits,
    case: &Table,
    rest: &mut [u8],
    cache: &mut Cache,
) -> u32
    requires { CardsTestable limits tbox.now book.now cards rest.old cache.old }
    ensures word { result ≡ set_below (covers_table limits case.now.bytes.now (unfolded_book limits tbox.now.bytes.now book.now))
        cards.count }
    ensures same_reference { cache.new.tables.ghost_name ≡ cache.old.tables.ghost_name }
    ensures long { length cache.new.tables.now ≡ length cache.old.tables.now }
    ensures cached { Cached limits (unfolded_book limits tbox.now.bytes.now book.now) cache.new }
{
    let mut word = 0;
    for k in 0..cards.count {
        let own = card(book, cards, k);
        let rows = unfolded_table(own, tbox, limits, rest);
        let covers = covers_case(case, rest, rows, limits.depth);
        if covers {
            word += bit(k);
            cache.keep(k, rest, rows);
        }
    }
    word
}

// The cards that cover the case, and their tables, as many as fit.
pub fn find_subsumers(
    tbox: &Tbox<'_>,
    case: &[u8],
    book: &[u8],
    cards: Fields,
    limits: Limits,
    work: &mut [u8],
    cache: &mut Cache,
) -> u32
    requires findable { Findable limits tbox.now case.now book.now cards work.old }
    requires cached { Cached limits (unfolded_book limits tbox.now.bytes.now book.now) cache.old }
    ensures word { result ≡ set_below
        (case_covered limits (unfolded_file limits tbox.now.bytes.now case.now) (unfolded_book limits tbox.now.bytes.now book.now))
        cards.count }
    ensures same_reference { cache.new.tables.ghost_name ≡ cache.old.tables.ghost_name }
    ensures long { length cache.new.tables.now ≡ length cache.old.tables.now }
    ensures cached { Cached limits (unfolded_book limits tbox.now.bytes.now book.now) cache.new }
{
    let half = half_size(limits);
    let (front, rest) = work.split_at_mut(half);
    let rows = unfolded_table(case, tbox, limits, front);
    let mut links = [0u8; LINKS];
    let table = Table::new(table_at(front, 0, rows), rows, &mut links);
    test_cards(tbox, book, cards, limits, &table, rest, cache)
}
