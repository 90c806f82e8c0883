// 2 to 13 of the definitions, in book order.
ghost use Rattle.std.specs.Prelude.{◌≡◌};
ghost use Rattle.table.specs.Bounds.{Bounded};
ghost use Rattle.definitions.specs.Asked.{asked_of, definitions_of, read_of};
ghost use Rattle.definitions_form.specs.Formed.{Formed};

use definitions_form::form::picture_of;
use field_places::places::Fields;
use picture::answer::{Input, Refusal};
use picture_reader::read::read;
use table::layout::Limits;

// To the first that is answered no; a definition is named by its place.
pub fn read_definitions(tbox: &[u8], fields: Fields, limits: Limits) -> Result<(), Refusal>
    requires { (Bounded limits) × (Formed tbox.now fields) }
    ensures { result ≡ asked_of (read_of limits) (definitions_of tbox.now) }
{
    for k in 0..fields.count {
        read(
            picture_of(tbox, fields, k),
            limits,
            Input::Definition(k as u8),
        )?;
    }
    Ok(())
}
