// The questions in their order.
ghost use Rattle.std.specs.Prelude.{◌≡◌, ◌++◌};
ghost use Rattle.definitions_asked.specs.Asking.{Asking, Reading, Sizing, pictures_all, sizes_of};
ghost use Rattle.definitions_asked.specs.Given.{Given, Opens, given_of};
ghost use Rattle.definitions_asked.specs.Lots.{lot_of};

use crate::excluded::ask_excluded;
use crate::lots::Lot;
use crate::measure::{Progress, measure_lot};
use crate::question::{and_then, question};
use definition_parts::opened::Tbox;
use definitions_form::form::has_definitions_form;
use definitions_reader::index::{Index, index_of};
use definitions_reader::readings::read_definitions;
use definitions_rings::rings::is_acyclic;
use field_places::places::{BookKind, Fields, find_fields};
use picture::answer::{Input, Refusal, refuse};
use table::layout::{Limits, NAMES};
use table::names::Names;
use table_rows::row::ends_at;

// 29 and 30 of all: of the first picture, of what there is beside it, and of the definitions.
fn ask_sizes(
    tbox: &Tbox<'_>,
    first: &Lot<'_>,
    rest: &Lot<'_>,
    own: &Lot<'_>,
    limits: Limits,
) -> Result<(), Refusal>
    requires { Sizing limits tbox.now first.now rest.now own.now }
    ensures { result ≡ sizes_of limits tbox.now.bytes.now
        ((lot_of first.now ++ lot_of rest.now) ++ lot_of own.now) }
{
    let start = Progress {
        few: Ok(()),
        shallow: Ok(()),
    };
    let one = measure_lot(first, tbox, limits, start);
    let given = measure_lot(rest, tbox, limits, one);
    let all = measure_lot(own, tbox, limits, given);
    let few = all.few;
    let shallow = all.shallow;
    and_then(few, shallow)
}

// 27 to 30 of all.
fn ask_pictures(
    tbox: &Tbox<'_>,
    fields: Fields,
    first: &[u8],
    rest: &Lot<'_>,
    limits: Limits,
) -> Result<(), Refusal>
    requires { Asking limits tbox.now fields first.now rest.now }
    ensures { result ≡ pictures_all limits tbox.now.bytes.now (given_of first.now rest.now) }
{
    let picture = Lot::First(first);
    let own = Lot::Definitions(tbox.bytes, fields);
    let one = ask_excluded(&picture, tbox.defined, Ok(()));
    let given = ask_excluded(rest, tbox.defined, one);
    let all = ask_excluded(&own, tbox.defined, given);
    let rings = question(28, Input::Definitions, is_acyclic(tbox));
    and_then(all, rings)?;
    ask_sizes(tbox, &picture, rest, &own, limits)
}

// 26 to 30, once the definitions have passed 2 to 13.
fn open_read(
    tbox: &[u8],
    fields: Fields,
    first: &[u8],
    rest: &Lot<'_>,
    limits: Limits,
) -> Result<Index, Refusal>
    requires { Reading limits tbox.now fields first.now rest.now }
    ensures { Opens limits tbox.now (given_of first.now rest.now) result }
{
    let found = index_of(tbox, fields);
    let Ok(index) = &found else {
        return Err(refuse(26, Input::Definitions));
    };
    let opened = Tbox {
        bytes: tbox,
        starts: &index.starts,
        defined: index.defined,
    };
    ask_pictures(&opened, fields, first, rest, limits)?;
    Ok(*index)
}

// 25 to 30 of a book and of what a call is given, the first picture and what there is beside it, which has passed 2 to
// 13; the index of the book. Of the end field alone nothing is asked.
pub fn open_definitions(
    tbox: &[u8],
    first: &[u8],
    rest: &Lot<'_>,
    limits: Limits,
) -> Result<Index, Refusal>
    requires { Given limits first.now rest.now }
    ensures { Opens limits tbox.now (given_of first.now rest.now) result }
{
    if ends_at(tbox, 0) {
        return Ok(Index {
            starts: [0usize; NAMES],
            defined: Names::none(),
        });
    }
    let fields = find_fields(tbox, BookKind::Definitions);
    if !has_definitions_form(tbox, fields) {
        return Err(refuse(25, Input::Definitions));
    }
    read_definitions(tbox, fields, limits)?;
    open_read(tbox, fields, first, rest, limits)
}
