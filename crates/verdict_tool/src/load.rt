// Reading a picture's file.
ghost use Rattle.std.specs.Counts.{IsPrefixLen};

use std::fs::{File, Files};
use std::io::Read;
use table::layout::{END_SIZE, MAX_ROWS, ROW_SIZE};

// One byte more than the longest picture, so that a longer file is seen to be longer.
pub const PICTURE: usize = ROW_SIZE * MAX_ROWS + END_SIZE + 1;

// Reads until there is no more room, the file ends or a read fails, and gives how much that was.
fn read_full(file: &mut impl Read, out: &mut [u8]) -> usize
    ensures { IsPrefixLen result out.new }
{
    let mut done = 0;
    while done < out.len() {
        let n = file.read(&mut out[done..]).unwrap_or(0);
        if n == 0 {
            break;
        }
        done += n;
    }
    done
}

// The file with a name; none where it cannot be opened, as where its name is no text.
fn open<R: Files>(rt: &R, name: &[u8]) -> Option<R::File> {
    File::open(rt, str::from_utf8(name).ok()?).ok()
}

// Reads as much of a file as there is room for, and gives how much that was; nothing of a file that cannot be opened.
pub fn load<R: Files>(rt: &R, name: &[u8], out: &mut [u8]) -> usize
    ensures { IsPrefixLen result out.new }
{
    match open(rt, name) {
        Some(mut file) => read_full(&mut file, out),
        None => 0,
    }
}
