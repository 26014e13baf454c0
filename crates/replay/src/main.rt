// Our side of the comparison with the Rust. With no argument it replays the recorded scripts, which stand beside it;
// `one` prints the whole state after each line of a script, `many` of many scripts.
#![tactic(auto)]

mod bytes;
mod sample;
mod states;
mod walk;

use std::io::Result;

// The first letter of the first argument, if there is one.
fn word(rt: &HostRuntime) -> Option<u8> {
    let mut name = [0u8; 4096];
    let k = filling::arg(rt, 1, &mut name);
    name[..k].first().copied()
}

fn main(rt: HostRuntime) -> Result<()> {
    match word(&rt) {
        Some(b'o') => states::run_one(&rt),
        Some(b'm') => states::run_many(&rt),
        _ => sample::run(&rt),
    }
}
