// The index of a definitions book: which names it defines, each once (26), and where the picture of each begins.
ghost use Rattle.std.specs.Prelude.{◌≡◌, ◌&&◌, not};
ghost use Rattle.table.specs.NameSet.{subset};
ghost use Rattle.table.specs.NameValues.{set_of};
ghost use Rattle.definitions_form.specs.Formed.{Formed};
ghost use Rattle.definitions_reader.specs.Index.{Indexed};

use definitions_form::form::{NAME_SIZE, name_of};
use field_places::places::Fields;
use table::layout::{HEAD_SIZE, NAMES};
use table::names::Names;

#[derive(Clone, Copy)]
pub struct Index {
    // By name.
    pub starts: [usize; NAMES],
    pub defined: Names,
}

// Whether no name was met twice, once one more is met.
fn still_once(once: bool, defined: Names, name: Names) -> bool
    ensures { result ≡ (once && not (subset (set_of name) (set_of defined))) }
{
    once && !name.subset(defined)
}

// One pass over the fields. Of a book that defines a name twice, where 26 is answered no, the defined names alone.
pub fn index_of(tbox: &[u8], fields: Fields) -> Result<Index, Names>
    requires { Formed tbox.now fields }
    ensures { Indexed tbox.now result }
{
    let mut starts = [0usize; NAMES];
    let mut defined = Names::none();
    let mut once = true;
    for k in 0..fields.count {
        let name = name_of(tbox, fields, k);
        let only = Names::only(name);
        once = still_once(once, defined, only);
        defined = defined.union(only);
        starts[name] = fields.places[k] + HEAD_SIZE + NAME_SIZE;
    }
    if !once {
        return Err(defined);
    }
    Ok(Index { starts, defined })
}
