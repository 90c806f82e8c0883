// A set of names by value. Only the functions here know its width.
ghost use Rattle.std.specs.Prelude.{◌≡◌, ℕ, ◌+◌, ◌^◌, ◌≤◌, ◌<◌, length, eqb, false, true};
ghost use Rattle.table.specs.Layout.{name_bytes, name_count};
ghost use Rattle.table.specs.Number.{be, be_bytes};
ghost use Rattle.table.specs.Put.{put};
ghost use Rattle.table.specs.NameSet.{has, none, union, intersection, complement, subset};
ghost use Rattle.table.specs.NameValues.{set_of, overlap};

use crate::layout::NAME_BYTES;
use crate::number::{copy_in, load64};

#[derive(Clone, Copy, PartialEq, Eq, Debug)]
pub struct Names {
    word: u64,
}

impl Names {
    pub fn none() -> Names
        ensures { set_of result ≡ none }
    {
        Names { word: 0 }
    }

    // The set that stands at a place of s.
    pub fn load(s: &[u8], at: usize) -> Names
        requires { at + name_bytes ≤ length s.now }
        ensures { (set_of result ≡ be s.now at name_bytes) × (set_of result < 2 ^ name_count) }
    {
        Names {
            word: load64(s, at),
        }
    }

    // Its bytes, as they stand in a table.
    #[tactic(auto, unfolding(crate::specs::Number::be_bytes))]
    pub fn bytes(self) -> [u8; NAME_BYTES]
        ensures { result ≡ be_bytes name_bytes (set_of self) }
    {
        self.word.to_be_bytes()
    }

    // Writes the set at a place of out.
    pub fn store(self, out: &mut [u8], at: usize)
        requires { at + name_bytes ≤ length out.old }
        ensures { out.new ≡ put out.old at (be_bytes name_bytes (set_of self)) }
    {
        copy_in(out, at, &self.bytes());
    }

    pub fn is_none(self) -> bool
        ensures { result ≡ eqb (set_of self) none }
    {
        self.word == 0
    }

    pub fn union(self, other: Names) -> Names
        ensures { set_of result ≡ union (set_of self) (set_of other) }
    {
        Names {
            word: self.word | other.word,
        }
    }

    pub fn intersection(self, other: Names) -> Names
        ensures { set_of result ≡ intersection (set_of self) (set_of other) }
    {
        Names {
            word: self.word & other.word,
        }
    }

    pub fn complement(self) -> Names
        ensures { set_of result ≡ complement (set_of self) }
    {
        Names { word: !self.word }
    }

    pub fn subset(self, other: Names) -> bool
        ensures { result ≡ subset (set_of self) (set_of other) }
    {
        self.intersection(other) == self
    }

    pub fn overlaps(self, other: Names) -> bool
        ensures { result ≡ overlap (set_of self) (set_of other) }
    {
        !self.intersection(other).is_none()
    }

    // The set of one name.
    pub fn only(name: usize) -> Names
        requires { name < name_count }
        ensures { set_of result ≡ 2 ^ name }
    {
        Names { word: 1u64 << name }
    }

    // The lowest name of the set; past the names if there is none.
    pub fn first(self) -> usize
        ensures { (result ≤ name_count)
            × (((k : ℕ) → k < result → has (set_of self) k ≡ false) × (result < name_count → has (set_of self) result ≡ true)) }
    {
        u64::trailing_zeros(self.word) as usize
    }
}
