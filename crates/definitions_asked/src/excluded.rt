// 27 of all pictures.
ghost use Rattle.std.specs.Prelude.{◌≡◌, ℕ, List};
ghost use Rattle.table.specs.NameValues.{set_of};
ghost use Rattle.definitions.specs.Asked.{question_of};
ghost use Rattle.definitions.specs.Tbox.{defined_word};
ghost use Rattle.definitions.specs.Unfolded.{excludes_none};
ghost use Rattle.definitions_asked.specs.Lots.{Askable, Asks, lot_of};

use crate::lots::Lot;
use crate::question::{and_then, question};
use definitions_reader::excluded::excludes_none;
use picture::answer::Refusal;
use table::layout::ROW_SIZE;
use table::names::Names;

// Of the pictures of one lot in turn, after what was asked before.
pub fn ask_excluded(
    lot: &Lot<'_>,
    defined: Names,
    before: Result<(), Refusal>,
) -> Result<(), Refusal>
    requires { Askable lot.now }
    ensures { (tbox : List ℕ) → set_of defined ≡ defined_word tbox →
        Asks (question_of 27 (excludes_none tbox)) (lot_of lot.now) before result }
{
    let mut asked = before;
    for k in 0..lot.count() {
        let picture = lot.picture(k);
        let passes = excludes_none(picture, picture.len() / ROW_SIZE, defined);
        asked = and_then(asked, question(27, lot.input(k as u8), passes));
    }
    asked
}
