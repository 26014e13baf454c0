// A script run: from its bytes to the bytes that are printed for it. What each line comes to is `walking`'s; here it is printed.
#![tactic(auto)]

ghost use Rattle.std.specs.Prelude.{◌≡◌, ◌++◌, ◌+◌, ◌*◌, ◌≤◌, length, drop};
ghost use Rattle.rules.specs.Sizes.{slot_count};
ghost use Rattle.rules.specs.Text.{lines};
ghost use Rattle.rules.specs.Script.{outcome_text, trace as traced, program, printed};
ghost use Rattle.state.specs.View.{Words, words_of, view_of, outcome_of, Fit};
ghost use Rattle.text.specs.Writing.{Appended};
ghost use Rattle.trace.specs.Running.{first_of, Prints};

use replies::Reply;
use state::{BatchSemaphore, LentWords, Stepped};
use walking::NotBegun;

// The most bytes that a script may have, and one more, which tells that it is too long.
pub const LONGEST: usize = 65536;

pub const INPUT: usize = LONGEST + 1;

// Room in the buffer for each byte of a script: no script prints more (`printed-short`, crates/rules/proofs/Rooms.antt).
pub const BYTE_ROOM: usize = 20;

// Room for all that is read.
pub const OUTPUT: usize = BYTE_ROOM * INPUT;

// The line of a step that was taken.
fn print_step(out: &mut [u8], n: usize, r: Stepped, grants: &[u32]) -> usize
    requires { (r.count ≤ slot_count) × (length grants.now ≡ slot_count * 3) × ((w : Words) → n + length (outcome_text (outcome_of r w grants.now)) ≤ length out.old) }
    ensures { (w : Words) → Appended out.old n (outcome_text (outcome_of r w grants.now)) out.new result }
{
    let c = printing::counts_of(r.state.head);
    printing::print_line(out, n, r.reply, c, grants, r.count)
}

// The lines from a place on. No `for`: each line says where the next one starts.
fn run_lines(
    script: &[u8],
    from: usize,
    out: &mut [u8],
    start: usize,
    first: BatchSemaphore,
    w: &mut LentWords,
) -> usize
    requires { (start + length (traced (view_of first (words_of w.old)) (lines (drop from script.now))) ≤ length out.old) × Fit first (words_of w.old) w.old.grants.now }
    ensures { Appended out.old start (traced (view_of first (words_of w.old)) (lines (drop from script.now))) out.new result }
{
    let mut at = from;
    let mut s = first;
    let mut n = start;
    while at < script.len() {
        let r = walking::walk_lent(script, at, &mut s, w);
        match r.answer {
            Some((reply, count)) => {
                let stepped = Stepped {
                    reply,
                    count,
                    state: s,
                };
                // by name first, as in `stepping`
                let grants = &mut *w.grants;
                n = print_step(out, n, stepped, grants);
            }
            None => n = text::put(out, n, b"bad\n"),
        }
        at = r.next;
    }
    n
}

// An accepted first line, and the lines behind it.
fn run_fresh(
    script: &[u8],
    from: usize,
    out: &mut [u8],
    s: BatchSemaphore,
    w: &mut LentWords,
) -> usize
    requires { (length (first_of (view_of s (words_of w.old)) ++ traced (view_of s (words_of w.old)) (lines (drop from script.now))) ≤ length out.old) × Fit s (words_of w.old) w.old.grants.now }
    ensures { Appended out.old 0 (first_of (view_of s (words_of w.old)) ++ traced (view_of s (words_of w.old)) (lines (drop from script.now))) out.new result }
{
    let first = Stepped {
        reply: Reply::Done,
        count: 0,
        state: s,
    };
    // by name first, as in `stepping`
    let grants = &mut *w.grants;
    let n = print_step(out, 0, first, grants);
    run_lines(script, from, out, n, s, w)
}

// A script of any length that fits: here the state's arrays are made.
fn run_whole(script: &[u8], out: &mut [u8]) -> usize
    requires { length (program (lines script.now)) ≤ length out.old }
    ensures { Appended out.old 0 (program (lines script.now)) out.new result }
{
    let mut slots = [0u32; 320];
    let mut tasks = [0u32; 32];
    let mut sizes = [0u32; 64];
    let mut rows = [0u32; 1024];
    let mut last = [0u32; 16];
    let mut makers = [0u32; 512];
    let mut clocks = [0u32; 256];
    let mut grants = [0u32; 96];
    match walking::begin(
        script,
        &mut slots,
        &mut tasks,
        &mut sizes,
        &mut rows,
        &mut last,
        &mut makers,
        &mut clocks,
    ) {
        Ok(b) => {
            let mut w = LentWords {
                slots: &mut slots,
                tasks: &mut tasks,
                sizes: &mut sizes,
                rows: &mut rows,
                last: &mut last,
                makers: &mut makers,
                clocks: &mut clocks,
                grants: &mut grants,
            };
            run_fresh(script, b.next, out, b.state, &mut w)
        }
        Err(NotBegun::Refused) => text::put(out, 0, b"r12\n"),
        Err(NotBegun::Bad) => text::put(out, 0, b"bad\n"),
        Err(NotBegun::Nothing) => 0,
    }
}

// A script of any length, with room for what it prints.
fn run_in(script: &[u8], out: &mut [u8]) -> usize
    requires { length (printed script.now) ≤ length out.old }
    ensures { Appended out.old 0 (printed script.now) out.new result }
{
    if LONGEST < script.len() {
        return text::put(out, 0, b"long\n");
    }
    run_whole(script, out)
}

// What `semtrace` prints for a script's bytes, written into a buffer; answers how many bytes it wrote. With less room than `BYTE_ROOM`
// bytes for each byte of the script it writes nothing.
pub fn run(script: &[u8], out: &mut [u8]) -> usize
    ensures { Prints script.now out.old out.new result }
{
    if out.len() / BYTE_ROOM < script.len() {
        return 0;
    }
    run_in(script, out)
}
