// The rows of a set, and the roles of what hangs from one, lowest first.
ghost use Rattle.std.specs.Prelude.{◌≡◌, ◌≤◌, ◌-◌};
ghost use Rattle.std.specs.Iterator.{at_most};
ghost use Rattle.table.specs.Bounds.{max_rows};
ghost use Rattle.table.specs.Layout.{roles};

use crate::rows::{ROLE_BITS, RowSet, Successors, next_bit};

// Those below a number of rows, from one on.
#[derive(Clone, Copy)]
pub struct Members {
    pub set: RowSet,
    pub from: usize,
    pub rows: usize,
    pub ghost few: { rows ≤ max_rows },
    pub ghost within: { from ≤ rows },
}

impl RowSet {
    pub fn members(self, rows: usize) -> Members
        requires { rows ≤ max_rows }
        ensures set { result.set ≡ self }
        ensures from { result.from ≡ 0 }
        ensures rows { result.rows ≡ rows }
    {
        Members {
            set: self,
            from: 0,
            rows,
        }
    }
}

impl Iterator for Members {
    type Item = usize;

    ghost use Rattle.row_sets.specs.Walks.{MemberStep};

    ghost next_gives = { MemberStep };

    ghost remaining = { λ m. at_most (m.rows - m.from) };

    fn next(&mut self) -> Option<usize> {
        let row = self.set.next(self.from, self.rows);
        if self.rows <= row {
            return None;
        }
        self.from = row + 1;
        Some(row)
    }
}

// Those of a word, from one on.
#[derive(Clone, Copy)]
pub struct Roles {
    pub word: u64,
    pub from: usize,
    pub ghost within: { from ≤ roles },
}

impl Successors {
    pub fn distinct_roles(self) -> Roles
        ensures word { result.word ≡ self.roles }
        ensures from { result.from ≡ 0 }
    {
        Roles {
            word: self.roles,
            from: 0,
        }
    }
}

impl Iterator for Roles {
    type Item = u8;

    ghost use Rattle.row_sets.specs.Walks.{RoleStep};

    ghost next_gives = { RoleStep };

    ghost remaining = { λ r. at_most (roles - r.from) };

    fn next(&mut self) -> Option<u8> {
        let role = next_bit(self.word, self.from);
        if ROLE_BITS <= role {
            return None;
        }
        self.from = role + 1;
        Some(role as u8)
    }
}
