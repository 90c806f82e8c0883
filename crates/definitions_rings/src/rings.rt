// 28, "is there no ring of definitions": in rounds, the defined names that use none but those found before.
ghost use Rattle.std.specs.Prelude.{◌≡◌, ◌&&◌, ◌||◌, ℕ, ◌<◌, eqb};
ghost use Rattle.table.specs.Layout.{name_count};
ghost use Rattle.table.specs.NameSet.{has, subset};
ghost use Rattle.table.specs.NameValues.{set_of};
ghost use Rattle.ale.specs.PictureSignature.{picture_signature};
ghost use Rattle.tbox.specs.Definitions.{Definitions};
ghost use Rattle.tbox.specs.Acyclic.{acyclic};
ghost use Rattle.definition_parts.specs.Tboxes.{Agreeing};
ghost use Rattle.definitions_rings.specs.Rings.{settle_set, settled_set, uses_at};

use crate::uses::find_uses;
use definition_parts::names::NameWalk;
use definition_parts::opened::Tbox;
use table::layout::NAMES;
use table::names::Names;

// A set with a name whose uses are all in another.
fn settle_name(found: Names, name: usize, used: Names, done: Names) -> Names
    requires { name < name_count }
    ensures { (m : ℕ) →
        has (set_of result) m ≡ (has (set_of found) m || (subset (set_of used) (set_of done) && eqb m name)) }
{
    if used.subset(done) {
        return found.union(Names::only(name));
    }
    found
}

// The defined names that use none but those of a set.
fn settle(uses: [Names; NAMES], defined: Names, done: Names) -> Names
    ensures { set_of result ≡ settle_set (uses_at uses) (set_of defined) (set_of done) }
{
    let mut found = Names::none();
    for name in NameWalk::over(defined) {
        found = settle_name(found, name, uses[name], done);
    }
    found
}

// Those found in as many rounds as there are names; after a round that adds none, every other would add none.
fn find_settled(uses: [Names; NAMES], defined: Names) -> Names
    ensures { set_of result ≡ settled_set (uses_at uses) (set_of defined) name_count }
{
    let mut done = Names::none();
    for round in 0..NAMES {
        let next = settle(uses, defined, done);
        if next.subset(done) {
            return done;
        }
        done = next;
    }
    done
}

// 28
pub fn is_acyclic(tbox: &Tbox<'_>) -> bool
    ensures { (D : Definitions picture_signature) →
        Agreeing D tbox.now → result ≡ acyclic picture_signature D }
{
    let uses = find_uses(tbox);
    tbox.defined.subset(find_settled(uses, tbox.defined))
}
