// The numbers of the format. Each number of the paper stands once; the others are computed from them.
ghost use Rattle.std.specs.Prelude.{◌≡◌, ℕ, ◌+◌, ◌≤◌, ◌<◌};
ghost use Rattle.table.specs.Layout.{«place», row_size};
ghost use Rattle.table.specs.Bounds.{bench_limits, max_rows, Bounded};
ghost use Rattle.table.specs.Profiles.{profile_of};

// A field: one byte of tag, a number of two bytes for the length, then the value.
pub const TAG_SIZE: usize = 1;

pub const NUMBER_SIZE: usize = 2;

pub const LENGTH_AT: usize = TAG_SIZE;

pub const HEAD_SIZE: usize = LENGTH_AT + NUMBER_SIZE;

pub const ROW_TAG: u8 = 0x10;

pub const END_TAG: u8 = 0x2F;

// The end field is a head alone.
pub const END_LENGTH: usize = 0;

pub const END_SIZE: usize = HEAD_SIZE + END_LENGTH;

// A set of names is this many bytes.
pub const NAME_BYTES: usize = 8;

// A bit for each name.
pub const NAMES: usize = 8 * NAME_BYTES;

// Where the parts of a row's field begin, from its tag on.
pub const PARENT_AT: usize = HEAD_SIZE;

pub const KIND_AT: usize = PARENT_AT + NUMBER_SIZE;

pub const ROLE_AT: usize = KIND_AT + 1;

pub const IMPOSSIBLE_AT: usize = ROLE_AT + 1;

pub const WANTED_AT: usize = IMPOSSIBLE_AT + 1;

pub const EXCLUDED_AT: usize = WANTED_AT + NAME_BYTES;

pub const ROW_SIZE: usize = EXCLUDED_AT + NAME_BYTES;

pub const ROW_LENGTH: usize = ROW_SIZE - HEAD_SIZE;

pub const KIND_ROOT: u8 = 0;

pub const KIND_EXISTS: u8 = 1;

pub const KIND_FOR_ALL: u8 = 2;

pub const ROLES: u8 = 32;

// No table has more rows, and no row stands deeper.
pub const MAX_ROWS: usize = 256;

pub const MAX_DEPTH: usize = 12;

// The clip reader's.
pub const CLIP_ROWS: usize = 64;

pub const CLIP_DEPTH: usize = 6;

// How many rows a picture may have, and how many edges from the root.
#[derive(Clone, Copy, PartialEq, Eq, Debug)]
pub struct Limits {
    pub rows: usize,
    pub depth: usize,
}

impl Limits {
    // Those of paper 01; paper 02 (U4) calls them the bench tool's.
    pub fn bench() -> Limits
        ensures { (result ≡ bench_limits) × (Bounded result) }
    {
        Limits {
            rows: MAX_ROWS,
            depth: MAX_DEPTH,
        }
    }
}

// The limits of a profile: 0 is the bench tool, 1 the clip reader, and no other number names one.
pub fn limits_of(profile: u32) -> Option<Limits>
    ensures { result ≡ profile_of profile }
{
    match profile {
        0 => Some(Limits::bench()),
        1 => Some(Limits {
            rows: CLIP_ROWS,
            depth: CLIP_DEPTH,
        }),
        _ => None,
    }
}

// The byte at which a part of a row stands.
pub fn place(row: usize, offset: usize) -> usize
    requires { (row ≤ max_rows) × (offset ≤ row_size) }
    ensures { result ≡ «place» row offset }
{
    ROW_SIZE * row + offset
}
