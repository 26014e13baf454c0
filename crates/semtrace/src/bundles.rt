// Bundles run or listed.
ghost use Rattle.std.specs.Prelude.{◌≤◌};
ghost use Rattle.filling.specs.Counts.{IsPrefixLen};

use super::BUNDLE;
use super::writing::put;
use bundle_jobs::Job;

// More need not be counted: the count of a bundle has four bytes, so that no table is longer than 4 + 24 * (2^32 - 1) bytes, and of a whole
// table's bundle it only matters that it is too long.
const ENOUGH: u64 = 103079215084;

// Of standard input so many bytes are kept, and so many more were counted. No buffer with its length: that `more` goes beside a kept part is
// how `bundle_jobs` is asked, and the buffer is lent by the caller.
#[derive(Clone, Copy)]
struct Got {
    kept: usize,
    more: u64,
}

// Some bytes of standard input, passed over and counted.
fn pass_over(rt: &HostRuntime) -> u64
    ensures { result ≤ 65536 }
{
    let mut space = [0u8; 65536];
    filling::read_full(&mut rt.stdin(), &mut space) as u64
}

// How many bytes are left on standard input, or more than enough: a bundle that is too long is judged by how long it is. No `for`: the
// reader says how far each turn goes.
fn count_rest(rt: &HostRuntime) -> u64 {
    let mut more = 0;
    while more < ENOUGH {
        let n = pass_over(rt);
        if n == 0 {
            break;
        }
        more += n;
    }
    more
}

fn read(rt: &HostRuntime, buf: &mut [u8]) -> Got
    ensures { IsPrefixLen result.kept buf.new }
{
    let kept = filling::read_full(&mut rt.stdin(), buf);
    let more = if kept < buf.len() { 0 } else { count_rest(rt) };
    Got { kept, more }
}

// The bundle on standard input, run or listed.
pub fn show(rt: &HostRuntime, job: Job) {
    let mut bundle = filling::room::<BUNDLE>();
    let got = read(rt, &mut bundle);
    let mut out = filling::room::<{ bundle_jobs::OUTPUT }>();
    let k = bundle_jobs::tell(job, &bundle[..got.kept], got.more, &mut out);
    put(rt, &out[..k]);
}
