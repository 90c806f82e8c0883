#![tactic(auto)]

// The verdict program: reads two pictures from the current folder, and prints whether the second covers the first.
fn main(rt: HostRuntime) {
    verdict_tool::run(&rt, b"first.pic", b"second.pic");
}
