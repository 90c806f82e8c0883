// The pictures that are asked, by lots: what a call was given, and the definitions.
ghost use Rattle.std.specs.Prelude.{◌≡◌, ◌<◌};
ghost use Rattle.definitions_asked.specs.Lots.{There, count_of, file_of, input_of};

use book_form::form::card;
use definitions_form::form::picture_of;
use field_places::places::Fields;
use picture::answer::Input;

// The first picture; nothing; a second picture; the cards of a book, by their places; the definitions of one.
#[derive(Clone, Copy)]
pub enum Lot<'a> {
    First(&'a [u8]),
    Nothing,
    Second(&'a [u8]),
    Cards(&'a [u8], Fields),
    Definitions(&'a [u8], Fields),
}

impl<'a> Lot<'a> {
    // How many there are.
    pub fn count(&self) -> usize
        ensures { result ≡ count_of self.now }
    {
        match self {
            Lot::First(_) => 1,
            Lot::Nothing => 0,
            Lot::Second(_) => 1,
            Lot::Cards(_, fields) => fields.count,
            Lot::Definitions(_, fields) => fields.count,
        }
    }

    // Picture k; a picture in a slice of its own is all of it.
    pub fn picture(&self, k: usize) -> &'a [u8]
        requires { (There self.now) × (k < count_of self.now) }
        ensures { result.now ≡ file_of self.now k }
    {
        match self {
            Lot::First(file) => file,
            Lot::Nothing => &[],
            Lot::Second(file) => file,
            Lot::Cards(file, fields) => card(file, *fields, k),
            Lot::Definitions(file, fields) => picture_of(file, *fields, k),
        }
    }

    // How a refusal names picture k.
    pub fn input(&self, k: u8) -> Input
        ensures { result ≡ input_of self.now k }
    {
        match self {
            Lot::First(_) => Input::First,
            Lot::Nothing => Input::Second,
            Lot::Second(_) => Input::Second,
            Lot::Cards(_, _) => Input::Card(k),
            Lot::Definitions(_, _) => Input::Definition(k),
        }
    }
}
