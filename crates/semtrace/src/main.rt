// Document 01's script program, and what document 02 has it do with bundles. All that it prints is what the libraries write into a
// buffer; no contract can say what is read or written: it reads, calls and writes.
#![tactic(auto)]

mod bundles;
mod packing;
mod writing;

use bundle_jobs::Job;
use writing::put;

// One byte more than a bundle may have: a buffer that is full tells that there is too much.
const BUNDLE: usize = bundle::LONGEST + 1;

fn run(rt: &HostRuntime) {
    let mut script = filling::room::<{ trace::INPUT }>();
    let n = filling::read_full(&mut rt.stdin(), &mut script);
    let mut out = filling::room::<{ trace::OUTPUT }>();
    let k = trace::run(&script[..n], &mut out);
    put(rt, &out[..k]);
}

// By the option.
fn act(rt: &HostRuntime, word: &[u8]) {
    if check::same(word, b"--bundle") {
        bundles::show(rt, Job::Run);
        return;
    }
    if check::same(word, b"--list") {
        bundles::show(rt, Job::List);
        return;
    }
    if check::same(word, b"--pack") {
        packing::pack(rt);
        return;
    }
    let _ = eprintln!(rt; "semtrace: no such option");
}

// There is no option for a script.
fn main(rt: HostRuntime) {
    let mut word = [0u8; 4096];
    let k = filling::arg(&rt, 1, &mut word);
    if k == 0 {
        run(&rt);
        return;
    }
    act(&rt, &word[..k]);
}
