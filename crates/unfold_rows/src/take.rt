// What a row takes in: the lowest defined name that is wanted and was not taken in, again and again.
ghost use Rattle.std.specs.Prelude.{◌≡◌, ℕ, ◌<◌, ◌^◌, eqb};
ghost use Rattle.table.specs.Layout.{name_count};
ghost use Rattle.table.specs.NameSet.{none};
ghost use Rattle.table.specs.NameValues.{set_of};
ghost use Rattle.table.specs.Pick.{pick};
ghost use Rattle.table_rows.specs.Rows.{HasRow};
ghost use Rattle.ale.specs.Rows.{first_from};
ghost use Rattle.unfold_rows.specs.Takings.{TakenIn, Took, wanting_in};

use definition_parts::opened::Tbox;
use table::layout::NAMES;
use table::names::Names;
use table_rows::row::{excluded, impossible, wanted};

// A label, and the names of the definitions that were taken in.
#[derive(Clone, Copy)]
pub struct Taking {
    pub wanted: Names,
    pub excluded: Names,
    pub impossible: u8,
    pub taken: Names,
}

// The lowest defined name that is still wanted; past the names if there is none.
fn next_name(s: Taking, defined: Names) -> usize
    requires { set_of s.taken < 2 ^ name_count }
    ensures { result ≡ first_from (wanting_in s (set_of defined)) 0 name_count }
{
    let wanted = s.wanted;
    let taken = s.taken;
    let more = wanted
        .intersection(defined)
        .intersection(taken.complement());
    more.first()
}

// Whether one of two marks is set.
fn either_mark(a: u8, b: u8) -> u8
    ensures { result ≡ pick (eqb b 1) 1 a }
{
    if b == 1 { 1 } else { a }
}

// The label with the names and the mark of a definition's root, which is row 0 of its picture.
fn take_one(s: Taking, picture: &[u8], name: usize) -> Taking
    requires { (HasRow picture.now 0) × (name < name_count) }
    ensures { Took s picture.now name result }
{
    let names = s.wanted;
    let others = s.excluded;
    let before = s.taken;
    Taking {
        wanted: names.union(wanted(picture, 0)),
        excluded: others.union(excluded(picture, 0)),
        impossible: either_mark(s.impossible, impossible(picture, 0)),
        taken: before.union(Names::only(name)),
    }
}

// The lowest defined name that is still wanted is taken in, again and again.
pub fn take_in(start: Taking, tbox: &Tbox<'_>) -> Taking
    requires { set_of start.taken ≡ none }
    ensures { TakenIn start tbox.now.bytes.now tbox.now.starts.now (set_of tbox.now.defined) result }
{
    let mut s = start;
    for _round in 0..NAMES {
        let name = next_name(s, tbox.defined);
        if name == NAMES {
            return s;
        }
        s = take_one(s, tbox.definition(name), name);
    }
    s
}
