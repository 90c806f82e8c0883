// 25, and of definition k the name and the picture. The fields of the book are found before (`find_fields`).
ghost use Rattle.std.specs.Prelude.{◌≡◌, ◌<◌, ◌≤◌, get_or, length};
ghost use Rattle.field_places.specs.Places.{Located, Placed};
ghost use Rattle.definitions.specs.Form.{definition_file, definition_tag, definitions_form, name_of, named};
ghost use Rattle.definitions_form.specs.Formed.{Formed};

use field_places::places::{Fields, has_form, value};
use table::layout::NAMES;

// The name stands in the first byte of a definition's value, its picture after it.
pub const NAME_SIZE: usize = 1;

// The name byte of a definition's value.
fn name_byte(definition: &[u8]) -> usize
    requires { 1 ≤ length definition.now }
    ensures { result ≡ get_or definition.now 0 0 }
{
    usize::from(definition[0])
}

// Whether definition k has a name byte, and that is a name.
fn is_named(tbox: &[u8], fields: Fields, k: usize) -> bool
    requires { (Located tbox.now fields) × (k < fields.count) }
    ensures { result ≡ named tbox.now k }
{
    let definition = value(tbox, fields, k);
    if definition.len() < NAME_SIZE {
        return false;
    }
    name_byte(definition) < NAMES
}

// 25
pub fn has_definitions_form(tbox: &[u8], fields: Fields) -> bool
    requires { Placed definition_tag tbox.now fields }
    ensures { result ≡ definitions_form tbox.now }
{
    if !has_form(tbox, fields) {
        return false;
    }
    (0..fields.count).all(|k| is_named(tbox, fields, k))
}

// The name that definition k defines.
pub fn name_of(tbox: &[u8], fields: Fields, k: usize) -> usize
    requires { (Formed tbox.now fields) × (k < fields.count) }
    ensures { result ≡ name_of tbox.now k }
{
    name_byte(value(tbox, fields, k))
}

// The picture of definition k, as a part of the book.
pub fn picture_of(tbox: &[u8], fields: Fields, k: usize) -> &[u8]
    requires { (Formed tbox.now fields) × (k < fields.count) }
    ensures { result.now ≡ definition_file tbox.now k }
{
    let definition = value(tbox, fields, k);
    &definition[NAME_SIZE..]
}
