// The places of a book's fields, found by one scan; the book's form; a field's value.
ghost use Rattle.std.specs.Prelude.{◌≡◌, ℕ, ◌<◌, ◌≤◌, eqb, length};
ghost use Rattle.fields.specs.Form.{field_count, field_value, field_with, fields_form, place_after};
ghost use Rattle.field_places.specs.Places.{Located, Placed, tag_of};

use table::layout::{HEAD_SIZE, LENGTH_AT};
use table::number::load16;
use table_rows::row::ends_at;

pub const CARD_TAG: u8 = 0x51;

pub const DEFINITION_TAG: u8 = 0x61;

pub const MAX_FIELDS: usize = 32;

// Where each field begins, and where the one after the last does.
pub const PLACES: usize = MAX_FIELDS + 1;

// Which book is read: it says the tag of its fields.
#[derive(Clone, Copy, PartialEq, Eq, Debug)]
pub enum BookKind {
    Cards,
    Definitions,
}

impl BookKind {
    // Whether a tag is that of its fields.
    fn has_tag(self, tag: u8) -> bool
        ensures { result ≡ eqb tag (tag_of self) }
    {
        match self {
            BookKind::Cards => match tag {
                CARD_TAG => true,
                0..=0x50 | 0x52..=0xFF => false,
            },
            BookKind::Definitions => match tag {
                DEFINITION_TAG => true,
                0..=0x60 | 0x62..=0xFF => false,
            },
        }
    }
}

// The fields of a book: their places, and how many there are. It goes from call to call by value.
#[derive(Clone, Copy, PartialEq, Eq, Debug)]
pub struct Fields {
    pub places: [usize; PLACES],
    pub count: usize,
}

// Whether a whole field with the book's tag stands at a place.
fn field_with(file: &[u8], kind: BookKind, at: usize) -> bool
    requires { at ≤ length file.now }
    ensures { result ≡ field_with (tag_of kind) file.now at }
{
    let left = file.len() - at;
    if left < HEAD_SIZE {
        return false;
    }
    kind.has_tag(file[at]) && load16(file, at + LENGTH_AT) as usize <= left - HEAD_SIZE
}

// Where the field after a whole one begins.
fn next_place(file: &[u8], at: usize) -> usize
    requires { place_after file.now at ≤ length file.now }
    ensures { result ≡ place_after file.now at }
{
    at + HEAD_SIZE + load16(file, at + LENGTH_AT) as usize
}

// The fields of a book, by one pass along them; the first begins at 0, which the array has from the start.
pub fn find_fields(file: &[u8], kind: BookKind) -> Fields
    ensures { Placed (tag_of kind) file.now result }
{
    let mut places = [0; PLACES];
    let mut at = 0;
    for k in 0..MAX_FIELDS {
        if !field_with(file, kind, at) {
            return Fields { places, count: k };
        }
        at = next_place(file, at);
        places[k + 1] = at;
    }
    Fields {
        places,
        count: MAX_FIELDS,
    }
}

// Whether the end field stands after the fields, and the file stops there.
pub fn has_form(file: &[u8], fields: Fields) -> bool
    requires { Located file.now fields }
    ensures { (tag : ℕ) → fields.count ≡ field_count tag file.now →
        result ≡ fields_form tag file.now }
{
    ends_at(file, fields.places[fields.count])
}

// The value of field k, as a part of the file: from after its head to where the next field begins.
pub fn value(file: &[u8], fields: Fields, k: usize) -> &[u8]
    requires { (Located file.now fields) × (k < fields.count) }
    ensures { result.now ≡ field_value file.now k }
{
    let start = fields.places[k] + HEAD_SIZE;
    let end = fields.places[k + 1];
    &file[start..end]
}
