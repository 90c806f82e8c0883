// Numbers of several bytes, the high byte first; bytes put into a lent part.
#![tactic(auto, unfolding(crate::specs::Number::be, crate::specs::Number::be_bytes))]

ghost use Rattle.std.specs.Prelude.{◌≡◌, ◌+◌, ◌-◌, ◌≤◌, ◌<◌, length};
ghost use Rattle.table.specs.Layout.{number_size};
ghost use Rattle.table.specs.Number.{be, be_bytes};
ghost use Rattle.table.specs.Put.{put, zeros};

use crate::layout::NUMBER_SIZE;

pub fn wide(x: u8) -> u64
    ensures { (result ≡ x) × (result < 256) }
{
    x as u64
}

pub fn load16(s: &[u8], at: usize) -> u64
    requires { at + 2 ≤ length s.now }
    ensures { (result ≡ be s.now at 2) × (result < 65536) }
{
    u64::from(u16::from_be_bytes([s[at], s[at + 1]]))
}

pub fn load32(s: &[u8], at: usize) -> u64
    requires { at + 4 ≤ length s.now }
    ensures { (result ≡ be s.now at 4) × (result < 4294967296) }
{
    u64::from(u32::from_be_bytes([s[at], s[at + 1], s[at + 2], s[at + 3]]))
}

pub fn load64(s: &[u8], at: usize) -> u64
    requires { at + 8 ≤ length s.now }
    ensures { result ≡ be s.now at 8 }
{
    u64::from_be_bytes([
        s[at],
        s[at + 1],
        s[at + 2],
        s[at + 3],
        s[at + 4],
        s[at + 5],
        s[at + 6],
        s[at + 7],
    ])
}

// A number as it stands in a table; of a larger one the last two bytes.
pub fn number_bytes(number: usize) -> [u8; NUMBER_SIZE]
    ensures { result ≡ be_bytes number_size number }
{
    ((number % 65536) as u16).to_be_bytes()
}

// Copies src into dst at a place.
#[tactic(auto, using(crate::proofs::Puts::written_put))]
pub fn copy_in(dst: &mut [u8], at: usize, src: &[u8])
    requires { at + length src.now ≤ length dst.old }
    ensures { dst.new ≡ put dst.old at src.now }
{
    dst[at..at + src.len()].copy_from_slice(src);
}

// Writes zeros from one place to before another.
#[tactic(auto, using(crate::proofs::Puts::written_put), unfolding(crate::specs::Put::zeros))]
pub fn clear(dst: &mut [u8], from: usize, to: usize)
    requires { (from ≤ to) × (to ≤ length dst.old) }
    ensures { dst.new ≡ put dst.old from (zeros (to - from)) }
{
    dst[from..to].fill(0);
}
