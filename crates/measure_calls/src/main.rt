// The steps on standard input, each by a public call: the second column of `bench/run`.
#![tactic(auto)]

use std::io;

fn main(rt: HostRuntime) -> io::Result<()> {
    measuring::run_all::<true>(&rt)
}
