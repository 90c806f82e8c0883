// Names of a set one by one, by rising number.
ghost use Rattle.std.specs.Prelude.{◌≡◌, ◌&&◌, not, ℕ, ◌<◌, eqb};
ghost use Rattle.std.specs.Iterator.{YieldsFirst, item_count};
ghost use Rattle.table.specs.Layout.{name_count};
ghost use Rattle.table.specs.NameSet.{has};
ghost use Rattle.table.specs.NameValues.{set_of};
ghost use Rattle.definition_parts.specs.Names.{names_of};

use table::layout::NAMES;
use table::names::Names;

// A set without one name.
pub fn without(set: Names, name: usize) -> Names
    requires { name < name_count }
    ensures { (m : ℕ) → m < name_count → has (set_of result) m ≡ (has (set_of set) m && not (eqb m name)) }
{
    let one = Names::only(name);
    set.intersection(one.complement())
}

// The names that are left.
#[derive(Clone, Copy)]
pub struct NameWalk {
    pub left: Names,
}

impl NameWalk {
    pub fn over(set: Names) -> NameWalk
        ensures { result.left ≡ set }
    {
        NameWalk { left: set }
    }
}

impl Iterator for NameWalk {
    type Item = usize;

    ghost next_gives = { YieldsFirst (λ s. names_of (set_of s.left)) };

    ghost remaining = { item_count (λ s. names_of (set_of s.left)) };

    fn next(&mut self) -> Option<usize> {
        let name = self.left.first();
        if name < NAMES {
            self.left = without(self.left, name);
            return Some(name);
        }
        None
    }
}
