// A script walked line by line: for each line what it prints, and behind an accepted one the whole state.
use crate::bytes::part;
use arrays::{Arrays, Came};
use printing::bit;
use replies::Reply;
use rules::{Act, Question, Step};
use showing::{put, put_step};
use state::{BatchSemaphore, Stepped};
use std::io::Result;
use walking::{Begun, NotBegun};

// Room for the text of a recorded script.
pub const ROOM: usize = 131072;

// After a line: what it came to, and where its text ends.
#[derive(Clone, Copy)]
struct Turn {
    pub came: Came,
    pub end: usize,
}

// What the first line came to, and the words it was begun in.
#[derive(Clone, Copy)]
struct Opened {
    pub begun: std::result::Result<Begun, NotBegun>,
    pub arrays: Arrays,
}

// How many questions about points a step has.
fn asked(act: Act) -> usize {
    match act {
        Act::Poll(_) | Act::Try(_) | Act::TryUpgrade { .. } | Act::Release(_) | Act::Close => 1,
        Act::Drop(_) => 2,
        _ => 0,
    }
}

// The first of them, and the second; where it has none, a close's.
fn question(act: Act) -> Question {
    match act {
        Act::Poll(x) => Question::BeforePoll(x),
        Act::Try(_) => Question::BeforeTry,
        Act::TryUpgrade { held, wanted } => Question::BeforeTryUpgrade { held, wanted },
        Act::Release(_) => Question::BeforeRelease,
        Act::Drop(x) => Question::BeforeDrop(x),
        _ => Question::BeforeClose,
    }
}

fn second_question(act: Act) -> Question {
    match act {
        Act::Drop(x) => Question::BeforeDropAgain(x),
        _ => Question::BeforeClose,
    }
}

// What a question is told; a refused one stands before a refused step, whose points are not printed.
fn answer(s: BatchSemaphore, w: Arrays, a: Step, q: Question) -> u32 {
    arrays::point(s, w, a.actor, q).map_or(2, bit)
}

// A step is taken, and what it came to is written.
fn run_step(buf: &mut [u8], at: usize, s: BatchSemaphore, w: Arrays, a: Step) -> Turn {
    let act = a.act;
    let first = answer(s, w, a, question(act));
    let second = answer(s, w, a, second_question(act));
    let came = arrays::step(s, w, a);
    let end = put_step(buf, at, &[first, second], asked(act), came);
    Turn { came, end }
}

// A line is run.
fn run_line(buf: &mut [u8], at: usize, came: Came, said: Option<Step>) -> Turn {
    let Some(a) = said else {
        let end = put(buf, at, b"bad\n");
        return Turn { came, end };
    };
    let r = came.stepped;
    run_step(buf, at, r.state, came.arrays, a)
}

// What is past the limit is written out.
fn emptied(rt: &impl Print, buf: &[u8], at: usize, limit: usize) -> Result<usize> {
    if at < limit {
        return Ok(at);
    }
    rt.write_all(part(buf, 0, at))?;
    Ok(0)
}

// The lines from a place on. No `for`: each line says where the next one starts.
fn run_lines(
    rt: &impl Print,
    script: &[u8],
    from: usize,
    buf: &mut [u8],
    limit: usize,
    first: Turn,
) -> Result<usize> {
    let mut at = from;
    let mut t = first;
    while at < script.len() {
        let l = reading::read_line(script, at);
        let said = l.said;
        let n = emptied(rt, buf, t.end, limit)?;
        t = run_line(buf, n, t.came, said);
        at = l.next;
    }
    Ok(t.end)
}

// A fresh state, and the lines behind it.
fn run_fresh(
    rt: &impl Print,
    script: &[u8],
    buf: &mut [u8],
    limit: usize,
    begun: Begun,
    arrays: Arrays,
) -> Result<usize> {
    let state = begun.state;
    let stepped = Stepped {
        reply: Reply::Done,
        count: 0,
        state,
    };
    let came = Came { stepped, arrays };
    let end = put_step(buf, 0, &[], 0, came);
    run_lines(rt, script, begun.next, buf, limit, Turn { came, end })
}

// What the first line comes to.
fn begin(script: &[u8]) -> Opened {
    let mut slots = [0u32; 320];
    let mut tasks = [0u32; 32];
    let mut sizes = [0u32; 64];
    let mut rows = [0u32; 1024];
    let mut last = [0u32; 16];
    let mut makers = [0u32; 512];
    let mut clocks = [0u32; 256];
    let begun = walking::begin(
        script,
        &mut slots,
        &mut tasks,
        &mut sizes,
        &mut rows,
        &mut last,
        &mut makers,
        &mut clocks,
    );
    let arrays = Arrays {
        slots,
        tasks,
        sizes,
        rows,
        last,
        makers,
        clocks,
        grants: [0; 96],
    };
    Opened { begun, arrays }
}

// The text for a script; where it ends in a buffer. Whenever the buffer is full to the limit, it is written out first.
pub fn run(rt: &impl Print, script: &[u8], buf: &mut [u8], limit: usize) -> Result<usize> {
    let o = begin(script);
    match o.begun {
        Ok(begun) => run_fresh(rt, script, buf, limit, begun, o.arrays),
        Err(NotBegun::Refused) => Ok(put(buf, 0, b"r12\n")),
        Err(NotBegun::Bad) => Ok(put(buf, 0, b"bad\n")),
        Err(NotBegun::Nothing) => Ok(0),
    }
}

// The text for a script is written out.
pub fn print(rt: &impl Print, script: &[u8]) -> Result<()> {
    let mut buf = [0u8; ROOM];
    let end = run(rt, script, &mut buf, 65536)?;
    rt.write_all(part(&buf, 0, end))
}
