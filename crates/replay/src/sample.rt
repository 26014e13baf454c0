// Runs the recorded scripts, NNN.script, and holds the whole state after each line to what the Rust did, NNN.state.
use crate::bytes::{byte_at, part};
use crate::walk;
use std::fs::File;
use std::io::Result;
use std::rt::Files;
use std::str;

// What was compared; and of the last script how many lines, and where the text for the last of them begins.
#[derive(Clone, Copy, Default)]
struct Tally {
    pub scripts: u64,
    pub steps: u64,
    pub refused: u64,
    pub differences: u64,
    pub line: u64,
    pub from: usize,
}

// Whether the text for a line of a script begins at a place: there begins a line, and not with a space.
fn begins(text: &[u8], i: usize) -> bool {
    byte_at(text, i) != b' ' && (i == 0 || byte_at(text, i - 1) == b'\n')
}

// A line whose text begins at a place, with a letter. Behind the first, a step's is not `bad`, and a refused one's is `r`.
fn begun(t: Tally, i: usize, letter: u8) -> Tally {
    let mut out = t;
    out.line = t.line.wrapping_add(1);
    out.from = i;
    if 0 < t.line {
        out.steps = t.steps.wrapping_add(u64::from(letter != b'b'));
        out.refused = t.refused.wrapping_add(u64::from(letter == b'r'));
    }
    out
}

// One byte more. Where only one of the texts begins a line, the other has more rows for the line before.
fn counted(t: Tally, got: &[u8], want: &[u8], i: usize) -> Tally {
    if begins(got, i) && begins(want, i) {
        begun(t, i, byte_at(got, i))
    } else {
        t
    }
}

// Where the text for the line that begins at a place ends.
fn block_end(text: &[u8], from: usize) -> usize {
    for i in from..text.len() {
        if begins(text, i + 1) {
            return i + 1;
        }
    }
    text.len()
}

// The line that differs, whole.
fn tell(
    rt: &impl Print,
    number: u32,
    got: &[u8],
    want: &[u8],
    line: u64,
    from: usize,
) -> Result<()> {
    println!(rt; "script {number}, line {line}\nthe Rust:")?;
    rt.write_all(part(want, from, block_end(want, from)))?;
    println!(rt; "this engine:")?;
    rt.write_all(part(got, from, block_end(got, from)))
}

// The first difference of all is told.
fn differing(rt: &impl Print, number: u32, got: &[u8], want: &[u8], t: Tally) -> Result<Tally> {
    if t.differences == 0 {
        tell(rt, number, got, want, t.line, t.from)?;
    }
    let mut out = t;
    out.differences = t.differences.wrapping_add(1);
    Ok(out)
}

// A script's text held to the recorded one, as long as they are the same.
fn compare(rt: &impl Print, number: u32, got: &[u8], want: &[u8], before: Tally) -> Result<Tally> {
    let mut t = before;
    t.scripts = before.scripts.wrapping_add(1);
    t.line = 0;
    for i in 0..got.len().max(want.len()) {
        t = counted(t, got, want, i);
        if byte_at(got, i) != byte_at(want, i) {
            return differing(rt, number, got, want, t);
        }
    }
    Ok(t)
}

fn digit(n: u32) -> u8 {
    b'0' + (n % 10) as u8
}

// How many bytes a file has, if there is one.
fn read(rt: &impl Files, number: u32, ending: &[u8], buf: &mut [u8]) -> Option<usize> {
    let mut path = [0u8; 16];
    let digits = [digit(number / 100), digit(number / 10), digit(number)];
    let p = showing::put(&mut path, 0, &digits);
    let n = showing::put(&mut path, p, ending);
    let name = str::from_utf8(part(&path, 0, n)).unwrap_or("");
    let mut file = File::open(rt, name).ok()?;
    Some(filling::read_full(&mut file, buf))
}

// The script of a number, if there is one.
fn replay(rt: &(impl Files + Print), number: u32, t: Tally) -> Result<Tally> {
    let mut script = [0u8; 65536];
    let mut want = [0u8; walk::ROOM];
    let mut got = [0u8; walk::ROOM];
    let Some(k) = read(rt, number, b".script", &mut script) else {
        return Ok(t);
    };
    let n = walk::run(rt, part(&script, 0, k), &mut got, walk::ROOM)?;
    let m = read(rt, number, b".state", &mut want).unwrap_or(0);
    compare(rt, number, part(&got, 0, n), part(&want, 0, m), t)
}

fn replay_all(rt: &(impl Files + Print)) -> Result<Tally> {
    let mut t = Tally::default();
    for number in 0..1000 {
        t = replay(rt, number, t)?;
    }
    Ok(t)
}

// Replays the sample, and says what was compared.
pub fn run(rt: &(impl Files + Print)) -> Result<()> {
    let t = replay_all(rt)?;
    println!(rt;
        "{} scripts, {} steps, {} of them refused, {} differences",
        t.scripts, t.steps, t.refused, t.differences
    )
}
