// A definitions book of which each definition was found and read.
ghost use Rattle.std.specs.Prelude.{◌≡◌, ◌<◌, true};
ghost use Rattle.table.specs.Layout.{name_count};
ghost use Rattle.table.specs.NameSet.{has};
ghost use Rattle.table.specs.NameValues.{set_of};
ghost use Rattle.definition_parts.specs.Parts.{Opened};

use crate::part::definition;
use table::layout::NAMES;
use table::names::Names;

#[derive(Clone, Copy)]
pub struct Tbox<'a> {
    pub bytes: &'a [u8],
    // Where the picture of each defined name begins.
    pub starts: &'a [usize; NAMES],
    pub defined: Names,
    pub ghost opened: { Opened bytes.now starts.now (set_of defined) },
}

impl<'a> Tbox<'a> {
    ghost use Rattle.definition_parts.specs.Tboxes.{picture_of};

    // The picture of a defined name.
    pub fn definition(&self, name: usize) -> &'a [u8]
        requires { (name < name_count) × (has (set_of self.now.defined) name ≡ true) }
        ensures { result.now ≡ picture_of self.now name }
    {
        definition(self.bytes, self.starts, name)
    }
}
