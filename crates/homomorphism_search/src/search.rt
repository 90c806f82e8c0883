// The search for a homomorphism. Row test and successor search call each other, and the remaining depth falls at each cycle. Two rows meet at most
// once, for each hangs from one other only; so the work is bounded by rows times rows. What is found is kept: for each row of the second table its image,
// for each row of the first the row that no edge served. So the evidence is written without another search.
ghost use Rattle.std.specs.Prelude.{false, true, ◌≡◌, ℕ, ◌<◌, get_or, IfNone, IfSome, MatchOption};
ghost use Rattle.table.specs.Bounds.{max_rows};
ghost use Rattle.table.specs.Fields.{parent_of};
ghost use Rattle.homomorphism_search.specs.Search.{Apart, EdgeRow, Found, FoundBelow, Missed, MissedBelow, RowLabel, lowest_image, row_maps, same_edge, unserved_row};

use crate::edge::{hangs_by, row_edge};
use crate::label::{label_at, label_within};
use row_sets::label::Label;
use row_sets::linked::Table;
use table::layout::MAX_ROWS;
use table_rows::row::impossible;

// Whether row v of the first hangs by the kind and role of row c of the second.
pub fn same_edge(first: &[u8], v: usize, second: &[u8], c: usize) -> bool
    requires { (EdgeRow first.now v) × (EdgeRow second.now c) }
    ensures { result ≡ same_edge first.now second.now c v }
{
    hangs_by(row_edge(second, c), first, v)
}

// The row test: whether row w, whose label is given, maps to row u. A marked row takes everything. Only `lowest_image` calls it, so it is compiled into the
// loop there.
#[cycle(search)]
fn row_maps<'a>(
    first: &'a Table<'a>,
    second: &'a Table<'a>,
    label: Label,
    w: usize,
    u: usize,
    depth: usize,
    found: &mut [u8; MAX_ROWS],
    missed: &mut [u8; MAX_ROWS],
) -> bool
    requires { (RowLabel second.now.bytes.now w label) × (w < second.now.rows) × (u < first.now.rows) }
    ensures is { result ≡ row_maps first.now.bytes.now second.now.bytes.now depth w u }
    ensures apart { (Apart (parent_of second.now.bytes.now) w found.old found.new)
        × (Apart (parent_of first.now.bytes.now) u missed.old missed.new) }
    ensures found { result ≡ true → Found first.now.bytes.now second.now.bytes.now found.new depth w u }
    ensures missed { result ≡ false → Missed first.now.bytes.now second.now.bytes.now missed.new depth w u }
{
    if impossible(first.bytes, u) == 1 {
        return true;
    }
    if !label_within(label, first.bytes, u) {
        return false;
    }
    if depth == 0 {
        return true;
    }
    unserved(first, second, w, u, depth - 1, found, missed).is_none()
}

// The first row that hangs from w and that no edge of u serves.
#[cycle(search)]
fn unserved<'a>(
    first: &'a Table<'a>,
    second: &'a Table<'a>,
    w: usize,
    u: usize,
    depth: usize,
    found: &mut [u8; MAX_ROWS],
    missed: &mut [u8; MAX_ROWS],
) -> Option<usize>
    requires { (w < second.now.rows) × (u < first.now.rows) }
    ensures row { MatchOption result (unserved_row first.now.bytes.now second.now.bytes.now depth w u ≡ 0)
        (λ c. (unserved_row first.now.bytes.now second.now.bytes.now depth w u ≡ c) × (c ≡ 0 → ⊥)) }
    ensures apart { (Apart (parent_of second.now.bytes.now) w found.old found.new)
        × (Apart (parent_of first.now.bytes.now) u missed.old missed.new) }
    ensures found { IfNone result (FoundBelow first.now.bytes.now second.now.bytes.now found.new depth w u) }
    ensures missed { IfSome result (λ c. (get_or missed.new u 0 ≡ c)
        × MissedBelow first.now.bytes.now second.now.bytes.now missed.new depth c u) }
{
    for c in second.below(w) {
        let Some(v) = lowest_image(first, second, c, u, depth, found, missed) else {
            missed[u] = c as u8;
            return Some(c);
        };
        found[c] = v as u8;
    }
    None
}

// The successor search: the lowest row below u that can be the image of row c, whose label and edge are read once.
#[cycle(search)]
fn lowest_image<'a>(
    first: &'a Table<'a>,
    second: &'a Table<'a>,
    c: usize,
    u: usize,
    depth: usize,
    found: &mut [u8; MAX_ROWS],
    missed: &mut [u8; MAX_ROWS],
) -> Option<usize>
    requires { (c < second.now.rows) × (c ≡ 0 → ⊥) × (u < first.now.rows) }
    ensures row { MatchOption result (lowest_image first.now.bytes.now second.now.bytes.now depth c u ≡ first.now.rows)
        (λ v. (lowest_image first.now.bytes.now second.now.bytes.now depth c u ≡ v) × (v < first.now.rows)) }
    ensures apart { (Apart (parent_of second.now.bytes.now) c found.old found.new)
        × (Apart (parent_of first.now.bytes.now) u missed.old missed.new) }
    ensures found { IfSome result (λ v. Found first.now.bytes.now second.now.bytes.now found.new depth c v) }
    ensures missed { IfNone result (MissedBelow first.now.bytes.now second.now.bytes.now missed.new depth c u) }
{
    let label = label_at(second.bytes, c);
    let edge = row_edge(second.bytes, c);
    let candidates = first.below(u);
    for v in candidates {
        if hangs_by(edge, first.bytes, v) {
            if row_maps(first, second, label, c, v, depth, found, missed) {
                return Some(v);
            }
        }
    }
    None
}

// Whether the second table maps to the first, root to root; and what was found. The row test of the roots stands here
// once more, so that `row_maps` has one caller and is compiled into its loop.
pub fn maps<'a>(
    first: &'a Table<'a>,
    second: &'a Table<'a>,
    depth: usize,
    found: &mut [u8; MAX_ROWS],
    missed: &mut [u8; MAX_ROWS],
) -> bool
    ensures is { result ≡ row_maps first.now.bytes.now second.now.bytes.now depth 0 0 }
    ensures found { result ≡ true → Found first.now.bytes.now second.now.bytes.now found.new depth 0 0 }
    ensures missed { result ≡ false → Missed first.now.bytes.now second.now.bytes.now missed.new depth 0 0 }
{
    if impossible(first.bytes, 0) == 1 {
        return true;
    }
    if !label_within(label_at(second.bytes, 0), first.bytes, 0) {
        return false;
    }
    if depth == 0 {
        return true;
    }
    unserved(first, second, 0, 0, depth - 1, found, missed).is_none()
}
