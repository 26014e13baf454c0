// The steps on standard input, 14 tested once: the first column of `bench/run`.
#![tactic(auto)]

use std::io;

fn main(rt: HostRuntime) -> io::Result<()> {
    measuring::run_all::<false>(&rt)
}
