// What the lines of a script say, one by one: the first line a start, each other line a step. Whoever goes through a script reads it here.
#![tactic(auto)]

ghost use Rattle.std.specs.Prelude.{◌≡◌, ◌+◌, ◌*◌, ◌^◌, ◌≤◌, ◌<◌, eqb, length, set, None, Some};
ghost use Rattle.rules.specs.Script.{start_of};
ghost use Rattle.script.specs.declared.Opening.TheVariants.{Given};
ghost use Rattle.script.specs.Opening.{opened};
ghost use Rattle.reading.specs.Starts.{entries_of, ClocksTo, SaysStart, SaysFirst};
ghost use Rattle.reading.specs.Steps.{SaysTo, SaysAt};

use rules::Step;
use script::{First, Opening};
use text::{NextLine, Reading};

// The step that a line says, or none; and where the next line starts.
#[derive(Clone, Copy)]
pub struct ReadLine {
    pub said: Option<Step>,
    pub next: usize,
}

// What the first line says: a start, and where the next line starts; or nothing; or that there is none. No Option or Result: neither of the
// last two is the failure of the other.
#[derive(Clone, Copy)]
pub enum FirstLine {
    Is { first: First, next: usize },
    Bad,
    Nothing,
}

// ---- steps
// What the bytes from a place to the line feed at e say.
fn read_to(script: &[u8], at: usize, e: usize) -> ReadLine
    requires { (at ≤ e) × (e < length script.now) }
    ensures { SaysTo script.now at e result }
{
    let said = script::step_of(&script[at..e]);
    ReadLine { said, next: e + 1 }
}

// A line that is not ended says nothing, and is the last.
fn read_unended(script: &[u8]) -> ReadLine
    ensures { result ≡ record { said = None; next = length script.now } }
{
    ReadLine {
        said: None,
        next: script.len(),
    }
}

// What the line at a place says.
pub fn read_line(script: &[u8], at: usize) -> ReadLine
    requires { at < length script.now }
    ensures { SaysAt script.now at result }
{
    match lines::line_at(script, at) {
        NextLine::Ended(e) => read_to(script, at, e),
        NextLine::Unended | NextLine::End => read_unended(script),
    }
}

// ---- starts
// How many entries the starting clocks of so many tasks have; none where 12 refuses so many tasks whatever their clocks. No Option:
// `start_read` takes so many of the words, and there it takes none.
pub fn entries_of(tasks: u32) -> usize
    ensures { result ≡ entries_of tasks }
{
    let n = tasks as usize;
    if n <= 16 { n * n } else { 0 }
}

// Whether so many entries are all of them: 64 bits hold the product for any number of tasks.
fn are_all(n: usize, tasks: u32) -> bool
    ensures { result ≡ eqb n (tasks * tasks) }
{
    let k = tasks as usize;
    n == k * k
}

// The entry behind n others is kept where there is room for it, and counted.
fn keep(starts: &mut [u32; 256], n: usize, x: u32) -> usize
    requires { n + 1 < 2 ^ 64 }
    ensures { (starts.new ≡ set starts.old n x) × (result ≡ n + 1) }
{
    if n < starts.len() {
        starts[n] = x;
    }
    n + 1
}

// The numbers of a line from a place on, every one of them counted; none where a field says no number. No `for`: each field says where the
// next one starts.
fn read_clocks(line: &[u8], from: usize, starts: &mut [u32; 256]) -> Option<usize>
    requires { from ≤ length line.now }
    ensures { ClocksTo line.now from result starts.new }
{
    let mut at = from;
    let mut n: usize = 0;
    loop {
        match text::number_at(line, at)? {
            Reading::Last(x) => return Some(keep(starts, n, x)),
            Reading::Then(x, next) => {
                n = keep(starts, n, x);
                at = next;
            }
        }
    }
}

// A start with the clocks that stand in a line from a place on: all of them, or the line says nothing.
fn with_clocks(
    first: First,
    line: &[u8],
    at: usize,
    next: usize,
    starts: &mut [u32; 256],
) -> FirstLine
    requires { at ≤ length line.now }
    ensures { SaysStart (opened line.now (Some (Given first at))) next result starts.new }
{
    match read_clocks(line, at, starts) {
        Some(n) if are_all(n, first.tasks) => FirstLine::Is { first, next },
        _ => FirstLine::Bad,
    }
}

// What a first line says that is ended, before the place of the next.
fn read_start(line: &[u8], next: usize, starts: &mut [u32; 256]) -> FirstLine
    ensures { SaysStart (start_of line.now) next result starts.new }
{
    match script::start_of(line) {
        Some(Opening::Spawned(first)) => {
            spawning::spawn(first.tasks, starts);
            FirstLine::Is { first, next }
        }
        Some(Opening::Given(first, at)) => with_clocks(first, line, at, next, starts),
        None => FirstLine::Bad,
    }
}

// What the first line says; the starting clocks of up to 16 tasks, given or spawned, stand in `starts` from its first word on.
pub fn read_first(script: &[u8], starts: &mut [u32; 256]) -> FirstLine
    ensures { SaysFirst script.now result starts.new }
{
    match lines::line_at(script, 0) {
        NextLine::Ended(e) => read_start(&script[..e], e + 1, starts),
        NextLine::Unended => FirstLine::Bad,
        NextLine::End => FirstLine::Nothing,
    }
}
