// A refutation with its links: what is reached from an individual is found without a scan.
// It is no instance of one generic walk with `Below` (row_sets): the links there are bytes and here numbers of two, and a
// generic list of links would have to be mapped to numbers in every statement about either.
ghost use Rattle.std.specs.Prelude.{◌≡◌, ◌+◌, ◌<◌, get_or, ℕ};
ghost use Rattle.std.specs.Iterator.{at_most};
ghost use Rattle.row_sets.specs.Chains.{OnChain, left_on};
ghost use Rattle.countermodel.specs.Individual.{individual_parent};
ghost use Rattle.countermodel.specs.Layout.{most_individuals};
ghost use Rattle.refutation_reader.specs.Individuals.{LinkedRefutation};

use crate::layout::MAX_INDIVIDUALS;
use crate::links::INDIVIDUAL_LINKS;

#[derive(Clone, Copy)]
pub struct Refutation<'a> {
    pub bytes: &'a [u8],
    pub count: usize,
    pub links: &'a [u16; INDIVIDUAL_LINKS],
    pub ghost linked: { LinkedRefutation bytes.now count links.now },
}

// The individuals that are reached from one, lowest first. A link is read when it is followed, and not before.
#[derive(Clone, Copy)]
pub struct Reached<'a> {
    pub refutation: &'a Refutation<'a>,
    pub above: usize,
    pub link: usize,
    pub ghost inside: { link < most_individuals + most_individuals },
    pub ghost on: { OnChain (individual_parent refutation.now.bytes.now) refutation.now.count above
        (get_or refutation.now.links.now link 0) },
}

impl<'a> Refutation<'a> {
    pub fn reached(&'a self, i: usize) -> Reached<'a>
        requires { i < self.now.count }
        ensures refutation { result.refutation.now ≡ self.now }
        ensures above { result.above ≡ i }
        ensures link { result.link ≡ i }
    {
        Reached {
            refutation: self,
            above: i,
            link: i,
        }
    }
}

impl<'a> Iterator for Reached<'a> {
    type Item = usize;

    ghost use Rattle.refutation_reader.specs.Walks.{Step};

    ghost next_gives = { Step };

    ghost remaining = { λ b. at_most (left_on b.refutation.now.count (get_or b.refutation.now.links.now b.link 0)) };

    fn next(&mut self) -> Option<usize> {
        let individual = usize::from(self.refutation.links[self.link]);
        if individual == 0 {
            return None;
        }
        self.link = MAX_INDIVIDUALS + individual;
        Some(individual)
    }
}
