// Text put into a buffer, part after part: each function gives the place after what it has put.
ghost use Rattle.std.specs.Prelude.{◌+◌, ◌<◌, ◌≤◌, length, ◌++◌, [], ◌∷◌};
ghost use Rattle.verdict_lines.specs.Gathering.{Added};
ghost use Rattle.verdict_lines.specs.Lines.{decimal};

use table::number::copy_in;

// As many digits as the greatest u64 has.
const MOST_DIGITS: usize = 20;

pub fn put_text(out: &mut [u8], at: usize, text: &[u8]) -> usize
    requires { at + length text.now ≤ length out.old }
    ensures { Added out.old at text.now result out.new }
{
    copy_in(out, at, text);
    at + text.len()
}

// A number in decimal, and the byte after it.
pub fn put_number(out: &mut [u8], at: usize, n: u64, after: u8) -> usize
    requires { at + length (decimal n) < length out.old }
    ensures { Added out.old at (decimal n ++ (after ∷ [])) result out.new }
{
    let mut digits = [0; MOST_DIGITS];
    let k = io::decimal(n, &mut digits);
    let end = put_text(out, at, &digits[..k]);
    put_text(out, end, &[after])
}
