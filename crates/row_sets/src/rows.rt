// Sets of file rows, and the file rows that hang from a set.
ghost use Rattle.std.specs.Prelude.{◌≡◌, ◌&&◌, ◌||◌, false, true, ℕ, ◌+◌, ◌*◌, ◌/◌, ◌%◌, ◌^◌, ◌≤◌, ◌<◌, eqb, get_or};
ghost use Rattle.table.specs.Bounds.{max_rows};
ghost use Rattle.table.specs.Fields.{parent_of, role_of};
ghost use Rattle.table.specs.Layout.{roles};
ghost use Rattle.table_rows.specs.Links.{Linked, Zeros};
ghost use Rattle.table.specs.NameSet.{has};
ghost use Rattle.table.specs.Pick.{pick};
ghost use Rattle.row_sets.specs.Rows.{Checked, Hung, Masked, Next, holds, word_of};

use crate::linked::Table;
use table::layout::{MAX_ROWS, ROLES};
use table_rows::row::{kind, parent, role};

// A set of rows takes this many words.
pub const WORDS: usize = 4;

pub const WORD_ROWS: usize = MAX_ROWS / WORDS;

// A set of roles is one word, of which so many bits are used.
pub const ROLE_BITS: usize = ROLES as usize;

// For each role and kind a set of rows.
pub const MASKS: usize = 2 * ROLE_BITS * WORDS;

// For each row the lowest that hangs from it, and the next that hangs where it does.
pub const LINKS: usize = 2 * MAX_ROWS;

// Row j is bit j % WORD_ROWS of word j / WORD_ROWS.
#[derive(Clone, Copy)]
pub struct RowSet {
    a: u64,
    b: u64,
    c: u64,
    d: u64,
}

// The rows that hang from a set, and their roles: role r is bit r.
#[derive(Clone, Copy)]
pub struct Successors {
    pub set: RowSet,
    pub roles: u64,
}

// The set of one bit.
fn bit(i: usize) -> u64
    requires { i < 64 }
    ensures { result ≡ 2 ^ i }
{
    1u64 << i
}

// A word where two numbers are the same, and elsewhere none.
fn only(i: usize, j: usize, word: u64) -> u64
    ensures { result ≡ pick (eqb i j) word 0 }
{
    if i == j { word } else { 0 }
}

// The lowest bit of a word from one on; past the word's end if there is none.
pub fn next_bit(word: u64, from: usize) -> usize
    requires { from < 64 }
    ensures { (from ≤ result) × (result ≤ from + 64)
        × ((k : ℕ) → from ≤ k → k < result → has word k ≡ false)
        × (result < 64 → has word result ≡ true) }
{
    from + u64::trailing_zeros(word >> from) as usize
}

impl RowSet {
    pub fn none() -> RowSet
        ensures { (j : ℕ) → holds result j ≡ false }
    {
        RowSet {
            a: 0,
            b: 0,
            c: 0,
            d: 0,
        }
    }

    fn word(self, i: usize) -> u64
        ensures { result ≡ word_of self i }
    {
        if i == 0 {
            return self.a;
        }
        if i == 1 {
            return self.b;
        }
        if i == 2 {
            return self.c;
        }
        self.d
    }

    // With row j.
    fn with(self, j: usize) -> RowSet
        requires { j < max_rows }
        ensures { (k : ℕ) → k < max_rows → holds result k ≡ (eqb k j || holds self k) }
    {
        let new = bit(j % WORD_ROWS);
        let i = j / WORD_ROWS;
        RowSet {
            a: self.a | only(i, 0, new),
            b: self.b | only(i, 1, new),
            c: self.c | only(i, 2, new),
            d: self.d | only(i, 3, new),
        }
    }

    // Those of one kind and role.
    pub fn of_edge(self, masks: &[u64; MASKS], kind: u8, role: u8) -> RowSet
        requires { role < roles }
        ensures { (j : ℕ) → j < max_rows →
            holds result j ≡ (holds self j && has (get_or masks.now (4 * (2 * role + kind % 2) + j / 64) 0) (j % 64)) }
    {
        let at = WORDS * (2 * role as usize + kind as usize % 2);
        RowSet {
            a: self.a & masks[at],
            b: self.b & masks[at + 1],
            c: self.c & masks[at + 2],
            d: self.d & masks[at + 3],
        }
    }

    // The lowest row of the set from one on; none below `rows` if there is none.
    pub fn next(self, from: usize, rows: usize) -> usize
        requires { rows ≤ max_rows }
        ensures { Next self from rows result }
    {
        let mut at = from;
        while at < rows {
            let word = self.word(at / WORD_ROWS);
            let i = next_bit(word, at % WORD_ROWS);
            if i < WORD_ROWS {
                return at / WORD_ROWS * WORD_ROWS + i;
            }
            at = at / WORD_ROWS * WORD_ROWS + WORD_ROWS;
        }
        at
    }
}

impl Successors {
    pub fn none() -> Successors
        ensures { (j : ℕ) → holds result.set j ≡ false }
    {
        Successors {
            set: RowSet::none(),
            roles: 0,
        }
    }

    // With row j.
    fn with(self, table: &Table, j: usize) -> Successors
        requires { j < table.now.rows }
        ensures set { (k : ℕ) → k < max_rows → holds result.set k ≡ (eqb k j || holds self.set k) }
        ensures roles { (i : ℕ) →
            has result.roles i ≡ (eqb i (role_of table.now.bytes.now j) || has self.roles i) }
    {
        Successors {
            set: self.set.with(j),
            roles: self.roles | bit(role(table.bytes, j) as usize),
        }
    }

    // With those that hang from row c.
    pub fn add<'a>(self, table: &'a Table<'a>, c: usize) -> Successors
        requires { c < table.now.rows }
        ensures { Hung table.now.bytes.now table.now.rows c self result }
    {
        let mut successors = self;
        for j in table.below(c) {
            successors = successors.with(table, j);
        }
        successors
    }
}

// For each row the lowest row that hangs from it, and then for each row the next that hangs from the same one; 0 if
// there is none.
pub fn fill_links(s: &[u8], rows: usize, links: &mut [u8; LINKS])
    requires { (Checked s.now rows) × (Zeros (max_rows + max_rows) links.old) }
    ensures { Linked (parent_of s.now) rows max_rows links.new }
{
    for j in (1..rows).rev() {
        let above = parent(s, j);
        links[MAX_ROWS + j] = links[above];
        links[above] = j as u8;
    }
}

// For each role the rows of each kind.
pub fn fill_masks(s: &[u8], rows: usize, masks: &mut [u64; MASKS])
    requires checked { Checked s.now rows }
    requires empty { Zeros 256 masks.old }
    ensures { Masked s.now rows masks.new }
{
    for j in 0..rows {
        let of_kind = kind(s, j) as usize % 2;
        let at = WORDS * (2 * role(s, j) as usize + of_kind) + j / WORD_ROWS;
        masks[at] |= bit(j % WORD_ROWS);
    }
}
