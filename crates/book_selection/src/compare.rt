// Which of the covering cards are passed over: they cover another of them that does not cover them in return. Each card
// is compared with the earlier ones, a pair both ways at once. A pair of which one is passed over already is left out:
// what covers that one strictly covers strictly a card that is not passed over. Once a card covers an earlier one, the
// other earlier ones say nothing new of it. Tables are compared where they stand. They are those of the unfolded cards:
// contracts speak of the book of these, which is never made.
ghost use Rattle.std.specs.Prelude.{◌≡◌, ◌&&◌, not, ℕ, ◌≤◌, ◌<◌, ◌+◌, length, true};
ghost use Rattle.table.specs.Bounds.{picture_size};
ghost use Rattle.table.specs.NameSet.{has};
ghost use Rattle.table.specs.Put.{zeros};
ghost use Rattle.homomorphism_search.specs.Search.{row_maps};
ghost use Rattle.meaning.specs.NormalTable.{normal_file};
ghost use Rattle.workspace.specs.Prepare.{work_size};
ghost use Rattle.order.specs.Preorder.{is_passed_over};
ghost use Rattle.book.specs.Form.{card_count, most_cards, «card»};
ghost use Rattle.book.specs.Selection.{card_covers};
ghost use Rattle.book_form.specs.Words.{WithEach};
ghost use Rattle.under.specs.Book.{unfolded_book};
ghost use Rattle.book_tables.specs.Cache.{Cached};
ghost use Rattle.book_selection.specs.Standing.{Checkable, Comparable, bytes_at};
ghost use Rattle.book_selection.specs.Comparing.{Compared, Ordered};

use crate::cards::cards_of;
use crate::spot::{Spot, find_table, keep_made, table_of};
use book_form::word::{with_card, without};
use book_tables::cache::Cache;
use book_tables::covering::table_covers;
use prepare_pair::prepare::half_size;
use row_sets::linked::Table;
use row_sets::rows::LINKS;
use table::layout::Limits;
use table::number::clear;

// Of two cards whether the first covers the second, and whether the second covers the first.
#[derive(Clone, Copy)]
struct Order {
    over: bool,
    under: bool,
}

// A table and the one at a spot, each with the other.
fn compare_spots<'a>(
    cache: &'a Cache,
    part: &'a [u8],
    own: &Table,
    spot: Spot,
    depth: usize,
) -> Order
    requires { Checkable cache.now part.now spot }
    ensures over { result.over ≡ row_maps (bytes_at cache.now part.now spot) own.now.bytes.now depth 0 0 }
    ensures under { result.under ≡ row_maps own.now.bytes.now (bytes_at cache.now part.now spot) depth 0 0 }
{
    let mut links = [0u8; LINKS];
    let table = table_of(cache, part, spot, &mut links);
    let other = &table;
    let over = table_covers(other, own, depth);
    let under = table_covers(own, other, depth);
    Order { over, under }
}

// The card whose own table is given, and card n, whose table may have to be made, in a lent part.
fn compare_pair(
    tbox: &[u8],
    book: &[u8],
    limits: Limits,
    cache: &Cache,
    own: &Table,
    n: usize,
    part: &mut [u8],
) -> Order
    requires known { Comparable limits tbox.now book.now cache.now }
    requires below { n < card_count book.now }
    requires room { picture_size limits ≤ length part.old }
    ensures { (m : ℕ) → m < card_count book.now
        → own.now.bytes.now ≡ normal_file limits («card» (unfolded_book limits tbox.now book.now) m)
        → Ordered limits (unfolded_book limits tbox.now book.now) m n result }
{
    let spot = find_table(tbox, book, n, limits, cache, part);
    compare_spots(cache, part, own, spot, limits.depth)
}

// The word with the one of cards m and n that covers the other and is not covered by it, if there is one.
fn mark_passed(redundant: u32, m: usize, n: usize, order: Order) -> u32
    requires { (m < most_cards) × (n < most_cards) }
    ensures { WithEach redundant m (order.over && not order.under) n (order.under && not order.over) result }
{
    if order.over {
        if order.under {
            return redundant;
        }
        return with_card(redundant, m);
    }
    if order.under {
        return with_card(redundant, n);
    }
    redundant
}

// Card m, whose own table is given, with the earlier ones, until it covers one of them.
fn compare_earlier(
    tbox: &[u8],
    book: &[u8],
    limits: Limits,
    cache: &Cache,
    covering: u32,
    m: usize,
    own: &Table,
    redundant: u32,
    part: &mut [u8],
) -> u32
    requires known { Comparable limits tbox.now book.now cache.now }
    requires below { m < card_count book.now }
    requires own { own.now.bytes.now ≡ normal_file limits («card» (unfolded_book limits tbox.now book.now) m) }
    requires covers { has covering m ≡ true }
    requires compared { Compared limits (unfolded_book limits tbox.now book.now) covering m redundant }
    requires room { picture_size limits ≤ length part.old }
    ensures { Compared limits (unfolded_book limits tbox.now book.now) covering (m + 1) result }
{
    let mut word = redundant;
    for n in cards_of(without(covering, redundant)) {
        if m <= n {
            return word;
        }
        let order = compare_pair(tbox, book, limits, cache, own, n, part);
        word = mark_passed(word, m, n, order);
        if order.over {
            return word;
        }
    }
    word
}

// Card m, which covers the case, with the earlier ones. Its table is made in the first half of the work space, if it is
// not kept, and is kept for the later ones, if there is room; theirs are made in the second half.
fn compare_card(
    tbox: &[u8],
    book: &[u8],
    limits: Limits,
    cache: &mut Cache,
    covering: u32,
    m: usize,
    redundant: u32,
    work: &mut [u8],
) -> u32
    requires known { Comparable limits tbox.now book.now cache.old }
    requires below { m < card_count book.now }
    requires covers { has covering m ≡ true }
    requires compared { Compared limits (unfolded_book limits tbox.now book.now) covering m redundant }
    requires long { length work.old ≡ work_size limits }
    ensures compared { Compared limits (unfolded_book limits tbox.now book.now) covering (m + 1) result }
    ensures same_reference { cache.new.tables.ghost_name ≡ cache.old.tables.ghost_name }
    ensures long { length cache.new.tables.now ≡ length cache.old.tables.now }
    ensures cached { Cached limits (unfolded_book limits tbox.now book.now) cache.new }
{
    let half = half_size(limits);
    let (front, rest) = work.split_at_mut(half);
    let spot = find_table(tbox, book, m, limits, cache, front);
    keep_made(cache, m, front, spot);
    let mut links = [0u8; LINKS];
    let own = table_of(cache, front, spot, &mut links);
    compare_earlier(
        tbox, book, limits, cache, covering, m, &own, redundant, rest,
    )
}

// Those of the covering cards that are passed over.
fn compare_cards(
    tbox: &[u8],
    book: &[u8],
    limits: Limits,
    cache: &mut Cache,
    covering: u32,
    work: &mut [u8],
) -> u32
    requires known { Comparable limits tbox.now book.now cache.old }
    requires inside { (k : ℕ) → has covering k ≡ true → k < card_count (unfolded_book limits tbox.now book.now) }
    requires long { length work.old ≡ work_size limits }
    ensures compared { Compared limits (unfolded_book limits tbox.now book.now) covering most_cards result }
    ensures same_reference { cache.new.tables.ghost_name ≡ cache.old.tables.ghost_name }
    ensures long { length cache.new.tables.now ≡ length cache.old.tables.now }
    ensures cached { Cached limits (unfolded_book limits tbox.now book.now) cache.new }
{
    let mut redundant = 0;
    for m in cards_of(covering) {
        redundant = compare_card(tbox, book, limits, cache, covering, m, redundant, work);
    }
    redundant
}

// The covering cards that are not passed over; the work space is cleared.
pub fn select_cards(
    tbox: &[u8],
    book: &[u8],
    limits: Limits,
    cache: &mut Cache,
    covering: u32,
    work: &mut [u8],
) -> u32
    requires known { Comparable limits tbox.now book.now cache.old }
    requires inside { (k : ℕ) → has covering k ≡ true → k < card_count (unfolded_book limits tbox.now book.now) }
    requires long { length work.old ≡ work_size limits }
    ensures word { (k : ℕ) → has result k ≡ (has covering k
        && not (is_passed_over (card_covers limits (unfolded_book limits tbox.now book.now))
        (card_count (unfolded_book limits tbox.now book.now)) (has covering) k)) }
    ensures same_reference { cache.new.tables.ghost_name ≡ cache.old.tables.ghost_name }
    ensures long { length cache.new.tables.now ≡ length cache.old.tables.now }
    ensures cached { Cached limits (unfolded_book limits tbox.now book.now) cache.new }
    ensures work { work.new ≡ zeros (work_size limits) }
{
    let redundant = compare_cards(tbox, book, limits, cache, covering, work);
    clear(work, 0, work.len());
    without(covering, redundant)
}
