// The numbers of a refutation file.
ghost use Rattle.std.specs.Prelude.{◌≡◌, ℕ, ◌≤◌};
ghost use Rattle.table.specs.Bounds.{Bounded};
ghost use Rattle.countermodel.specs.Layout.{«individual_place», individual_size, most_individuals, individuals_within};

use table::layout::{HEAD_SIZE, Limits, MAX_DEPTH, MAX_ROWS, NAME_BYTES, NUMBER_SIZE};

pub const INDIVIDUAL_TAG: u8 = 0x42;

// Where the parts of an individual's field begin, from its tag on.
pub const PARENT_AT: usize = HEAD_SIZE;

pub const ROLE_AT: usize = PARENT_AT + NUMBER_SIZE;

pub const NAMES_AT: usize = ROLE_AT + 1;

pub const INDIVIDUAL_SIZE: usize = NAMES_AT + NAME_BYTES;

pub const INDIVIDUAL_LENGTH: usize = INDIVIDUAL_SIZE - HEAD_SIZE;

// No refutation has more individuals.
pub const MAX_INDIVIDUALS: usize = (MAX_DEPTH + 1) * MAX_ROWS;

// How many a refutation may have.
pub fn individuals_within(limits: Limits) -> usize
    requires { Bounded limits }
    ensures { result ≡ individuals_within limits }
{
    (limits.depth + 1) * limits.rows
}

// The byte at which a part of an individual's field stands.
pub fn individual_place(k: usize, offset: usize) -> usize
    requires { (k ≤ most_individuals) × (offset ≤ individual_size) }
    ensures { result ≡ «individual_place» k offset }
{
    INDIVIDUAL_SIZE * k + offset
}
