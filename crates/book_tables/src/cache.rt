// The tables of covering cards in bytes that are lent, one after the other, so that they need not be made again.
ghost use Rattle.std.specs.Prelude.{List, ◌≡◌, ◌+◌, ◌≤◌, ◌<◌, ℕ, get_or, length, take};
ghost use Rattle.table.specs.Bounds.{max_rows};
ghost use Rattle.table.specs.Layout.{end_size, «place»};
ghost use Rattle.table.specs.Put.{put};
ghost use Rattle.table.specs.declared.layout.Limits.{Limits};
ghost use Rattle.book.specs.Form.{«card», most_cards};
ghost use Rattle.book_tables.specs.Cache.{Cached, TableAt, with_span};

use book_form::form::MAX_CARDS;
use normal_writer::write::TABLE;
use table::layout::{END_SIZE, place};
use table::number::copy_in;

// As many bytes as a call lends: twice as many as the longest table. Nothing that is proved asks how many.
pub const TABLES: usize = 2 * TABLE;

// Where a table begins, and its rows.
#[derive(Clone, Copy)]
pub struct Span {
    pub start: usize,
    pub rows: usize,
}

// The tables, for each card where its own is, and where all end.
#[derive(Drop)]
pub struct Cache<'a> {
    pub tables: &'a mut [u8],
    pub spans: [Option<Span>; MAX_CARDS],
    pub end: usize,
}

impl<'a> Cache<'a> {
    pub fn new(tables: &'a mut [u8]) -> Cache<'a>
        ensures same_reference { result.tables.ghost_name ≡ tables.entry.ghost_name }
        ensures lent { result.tables.now ≡ tables.old }
        ensures cached { (limits : Limits) (book : List ℕ) → Cached limits book result }
    {
        Cache {
            tables,
            spans: [None; MAX_CARDS],
            end: 0,
        }
    }

    // Where the table of card k is, if it is kept.
    pub fn find(&self, k: usize) -> Option<Span>
        requires { k < most_cards }
        ensures { result ≡ get_or self.now.spans k None }
    {
        self.spans[k]
    }

    // Keeps the table of card k, of so many rows, if it fits after the others.
    pub fn keep(&mut self, k: usize, part: &[u8], rows: usize)
        requires few { rows ≤ max_rows }
        requires whole { «place» rows end_size ≤ length part.now }
        requires below { k < most_cards }
        requires inside { self.old.end ≤ length self.old.tables.now }
        ensures kept { self.old.end + «place» rows end_size ≤ length self.old.tables.now →
            (self.new.tables.now ≡ put self.old.tables.now self.old.end (take («place» rows end_size) part.now))
            × (self.new.spans ≡ with_span self.old.spans k self.old.end rows)
            × (self.new.end ≡ self.old.end + «place» rows end_size) }
        ensures full { length self.old.tables.now < self.old.end + «place» rows end_size → self.new ≡ self.old }
        ensures same_reference { self.new.tables.ghost_name ≡ self.old.tables.ghost_name }
        ensures long { length self.new.tables.now ≡ length self.old.tables.now }
        ensures cached { (limits : Limits) (book : List ℕ) → Cached limits book self.old → TableAt limits («card» book k) part.now rows
            → Cached limits book self.new }
    {
        let size = place(rows, END_SIZE);
        let start = self.end;
        if self.tables.len() - start < size {
            return;
        }
        copy_in(self.tables, start, &part[..size]);
        self.spans[k] = Some(Span { start, rows });
        self.end = start + size;
    }
}

#[cfg(test)]
mod tests {
    use super::*;

    // Whoever lent an array has it again, with the table that was kept.
    #[test]
    fn array_comes_back(rt: HostRuntime) {
        let table = [7u8; 100];
        let mut tables = [0u8; 100];
        let mut cache = Cache::new(&mut tables);
        cache.keep(3, &table, 1);
        assert!(rt; cache.find(3).is_some());
        assert!(rt; cache.find(4).is_none());
        let size = cache.end;
        assert_eq!(rt; size, place(1, END_SIZE));
        assert_eq!(rt; tables[size - 1], 7);
        assert_eq!(rt; tables[size], 0);
    }
}
