// 29 and 30 of all pictures, in one pass: each picture is unfolded once.
ghost use Rattle.std.specs.Prelude.{◌≡◌};
ghost use Rattle.picture.specs.Asked.{yes};
ghost use Rattle.definitions_asked.specs.Lots.{lot_of};
ghost use Rattle.definitions_asked.specs.Measures.{LotMeasurable, Measurable, Measured, one};

use crate::lots::Lot;
use crate::question::{and_then, question};
use definition_parts::opened::Tbox;
use normal_writer::write::TABLE;
use picture::answer::{Input, Refusal, refuse};
use table::layout::{Limits, ROW_SIZE};
use unfold_depth::depth::is_shallow;
use unfold_rows::file::unfold_file;
use unfold_rows::wants::wants_defined;

// What is answered so far: 29, and 30 where 29 is answered yes.
#[derive(Clone, Copy)]
pub struct Progress {
    pub few: Result<(), Refusal>,
    pub shallow: Result<(), Refusal>,
}

// Of a picture that unfolding may change, where 29 was answered yes before.
// Not inlined, so that its array is in no caller's frame.
#[inline(never)]
fn measure_unfolded(
    picture: &[u8],
    input: Input,
    tbox: &Tbox<'_>,
    limits: Limits,
    before: Progress,
) -> Progress
    requires { (before.few ≡ yes) × (Measurable limits tbox.now picture.now) }
    ensures { Measured limits tbox.now.bytes.now (one input picture.now) before result }
{
    let mut out = [0u8; TABLE];
    let rows = picture.len() / ROW_SIZE;
    let count = unfold_file(picture, rows, tbox, limits.rows, &mut out);
    let shallow = before.shallow;
    if limits.rows < count {
        return Progress {
            few: Err(refuse(29, input)),
            shallow,
        };
    }
    let passes = is_shallow(&out, count, limits.depth);
    Progress {
        few: Ok(()),
        shallow: and_then(shallow, question(30, input, passes)),
    }
}

// Of a picture; one of which no row wants a defined name passes both.
fn measure(
    picture: &[u8],
    input: Input,
    tbox: &Tbox<'_>,
    limits: Limits,
    before: Progress,
) -> Progress
    requires { Measurable limits tbox.now picture.now }
    ensures { Measured limits tbox.now.bytes.now (one input picture.now) before result }
{
    if !wants_defined(picture, picture.len() / ROW_SIZE, tbox.defined) {
        return before;
    }
    let few = before.few;
    match few {
        Ok(()) => measure_unfolded(picture, input, tbox, limits, before),
        Err(_) => before,
    }
}

// Of the pictures of one lot in turn.
pub fn measure_lot(lot: &Lot<'_>, tbox: &Tbox<'_>, limits: Limits, before: Progress) -> Progress
    requires { LotMeasurable limits tbox.now lot.now }
    ensures { Measured limits tbox.now.bytes.now (lot_of lot.now) before result }
{
    let mut progress = before;
    for k in 0..lot.count() {
        let input = lot.input(k as u8);
        progress = measure(lot.picture(k), input, tbox, limits, progress);
    }
    progress
}
