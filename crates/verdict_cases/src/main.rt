#![tactic(auto)]

// The verdict program's other answers, on pairs of sample pictures, one after the other.
use verdict_tool::run;

fn main(rt: HostRuntime) {
    run(&rt, b"each.pic", b"both.pic");
    // The first is refused before the second is read.
    run(&rt, b"cut.pic", b"deep.pic");
    // Both are read before 14 is asked of the first.
    run(&rt, b"spread.pic", b"deep.pic");
    // 14 has no row and no byte.
    run(&rt, b"spread.pic", b"both.pic");
    // A file that is not there is empty.
    run(&rt, b"missing.pic", b"missing.pic");
    run(&rt, b"both.pic", b"missing.pic");
}
