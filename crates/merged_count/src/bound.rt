// An upper bound on the merged rows, which settles most pictures. That it is one is promised, not that it is low: a
// bound above the limit costs a count.
ghost use Rattle.std.specs.Prelude.{◌≡◌, true, ◌≤◌, ◌<◌, eqb, get_or};
ghost use Rattle.table.specs.Bounds.{Bounded};
ghost use Rattle.table.specs.Fields.{kind_of, parent_of};
ghost use Rattle.table.specs.Layout.{kind_exists};
ghost use Rattle.table.specs.Pick.{pick};
ghost use Rattle.row_sets.specs.Rows.{Checked};
ghost use Rattle.meaning.specs.NormalTable.{merged_count};
ghost use Rattle.merged_count.specs.Bound.{below_key, key_count, times_of};
ghost use Rattle.merged_count.specs.Weighing.{Blank, Filled, Later, Weighable};

use table::layout::{Limits, MAX_ROWS, NUMBER_SIZE, PARENT_AT, place};
use table_rows::row::{kind, role};

// More keys than rows, so that few paths of roles share one by chance.
pub const KEYS: usize = 1024;

// The key of a row, by that of its parent and its role. Any function would do; this one is a few instructions, keeps
// short paths of few roles apart, and gives no path the root's key at once.
fn key_below(key: usize, role: u8) -> usize
    requires { key < key_count }
    ensures { (result ≡ below_key key role) × (result < key_count) }
{
    (9 * key + role as usize + 1) % KEYS
}

// The parent of row j by its last byte: it stands before its row, so that the byte before that is 0. To read one byte in
// place of two makes both passes a fifth shorter.
fn above(s: &[u8], rows: usize, j: usize) -> usize
    requires { Later s.now rows j }
    ensures { (result ≡ parent_of s.now j) × (result < j) }
{
    s[place(j, PARENT_AT + NUMBER_SIZE - 1)] as usize
}

// 1 of a some-row, 0 of an all-row; the kind is one of two after 9, and this needs no branch.
fn some_count(s: &[u8], rows: usize, j: usize) -> u8
    requires { Later s.now rows j }
    ensures { (result ≡ pick (eqb (kind_of s.now j) kind_exists) 1 0) × (result ≤ 1) }
{
    kind(s, j) % 2
}

// Each row's key, and for each key the some-rows that have it.
fn fill_keys(s: &[u8], rows: usize, keys: &mut [u16; MAX_ROWS], somes: &mut [u8; KEYS])
    requires { Blank s.now rows keys.old somes.old }
    ensures { Filled s.now rows keys.new somes.new }
{
    for j in 1..rows {
        let key = key_below(keys[above(s, rows, j)] as usize, role(s, j));
        keys[j] = key as u16;
        somes[key] += some_count(s, rows, j);
    }
}

// How often what hangs below row j may stand in the merged table.
fn times(s: &[u8], rows: usize, keys: &[u16; MAX_ROWS], somes: &[u8; KEYS], j: usize) -> usize
    requires { (Later s.now rows j) × (get_or keys.now j 0 < key_count) }
    ensures { (result ≡ times_of s.now keys.now somes.now j) × (result ≤ 256) }
{
    let all = 1 - some_count(s, rows, j) as usize;
    1 + all * somes[keys[j] as usize] as usize
}

// The bound, from the last row back; beyond the limit, one more than it.
fn weigh(s: &[u8], rows: usize, limit: usize, keys: &[u16; MAX_ROWS], somes: &[u8; KEYS]) -> usize
    requires { Weighable s.now rows limit keys.now somes.now }
    ensures { result ≤ limit → (limits : Limits) → merged_count limits s.now ≤ result }
{
    let mut below = [0u8; MAX_ROWS];
    for j in (1..rows).rev() {
        let parent = above(s, rows, j);
        let share = 1 + below[j] as usize * times(s, rows, keys, somes, j);
        let sum = below[parent] as usize + share;
        if limit <= sum {
            return limit + 1;
        }
        below[parent] = sum as u8;
    }
    1 + below[0] as usize
}

// Whether the bound is within the limit; then so are the merged rows.
pub fn is_bounded(s: &[u8], rows: usize, limits: Limits) -> bool
    requires { (Checked s.now rows) × (Bounded limits) }
    ensures { result ≡ true → merged_count limits s.now ≤ limits.rows }
{
    let mut keys = [0u16; MAX_ROWS];
    let mut somes = [0u8; KEYS];
    fill_keys(s, rows, &mut keys, &mut somes);
    weigh(s, rows, limits.rows, &keys, &somes) <= limits.rows
}
