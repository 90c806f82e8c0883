// The rows that hang from a row, lowest first.
ghost use Rattle.std.specs.Prelude.{◌≡◌, ◌<◌, get_or};
ghost use Rattle.std.specs.Iterator.{at_most};
ghost use Rattle.table.specs.Fields.{parent_of};
ghost use Rattle.row_sets.specs.Chains.{OnChain, left_on};

use crate::linked::Table;
use table::layout::MAX_ROWS;

#[derive(Clone, Copy)]
pub struct Below<'a> {
    pub table: &'a Table<'a>,
    pub above: usize,
    pub next: u8,
    pub ghost on: { OnChain (parent_of table.now.bytes.now) table.now.rows above next },
}

impl<'a> Table<'a> {
    pub fn below(&'a self, w: usize) -> Below<'a>
        requires { w < self.now.rows }
        ensures table { result.table.now ≡ self.now }
        ensures above { result.above ≡ w }
        ensures next { result.next ≡ get_or self.now.links.now w 0 }
    {
        Below {
            table: self,
            above: w,
            next: self.links[w],
        }
    }
}

impl<'a> Below<'a> {
    // The walk from row e on; at 0 it is at its end.
    pub fn from(self, e: usize) -> Below<'a>
        requires { OnChain (parent_of self.table.now.bytes.now) self.table.now.rows self.above e }
        ensures table { result.table ≡ self.entry.table }
        ensures above { result.above ≡ self.entry.above }
        ensures next { result.next ≡ e }
    {
        Below {
            table: self.table,
            above: self.above,
            next: e as u8,
        }
    }
}

impl<'a> Iterator for Below<'a> {
    type Item = usize;

    ghost use Rattle.row_sets.specs.Walks.{Step};

    ghost next_gives = { Step };

    ghost remaining = { λ b. at_most (left_on b.table.now.rows b.next) };

    fn next(&mut self) -> Option<usize> {
        let row = self.next;
        if row == 0 {
            return None;
        }
        self.next = self.table.links[MAX_ROWS + row as usize];
        Some(row as usize)
    }
}
