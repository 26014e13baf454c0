// Runs the steps that stand on standard input, in records of eight bytes, and prints a sum of the replies: our side of `bench/run`. The
// first record is the start. All is read before the first step. Two ways: 14 tested once for the run, or by a public call for each step.
// Which is a const parameter, and each way has a program of its own, since a step that is called from one place alone is compiled into it.
#![tactic(auto)]

ghost use Rattle.std.specs.Prelude.{◌≡◌};
ghost use Rattle.state.specs.View.{words_of, Fit, SameWords};
ghost use Rattle.fresh.specs.Starting.{state_out};

use fresh::Refused;
use replies::Reply;
use rules::{Act, Fairness, Slot, Step, TaskId};
use script::First;
use state::{BatchSemaphore, LentWords, Stepped};
use std::io;
use std::io::Input;

// The bytes of a record.
const RECORD: usize = 8;

// The most bytes that are read: 131,072 records.
const INPUT: usize = 1048576;

// A number of two bytes, the lower first.
fn number(low: u8, high: u8) -> u32 {
    u32::from(u16::from_le_bytes([low, high]))
}

// A record's bytes are what the driver writes, and every byte means something: they are decoded here, and none is refused.

// What the record of a kind says, with its two numbers.
fn act(kind: u8, a: u32, b: u32, slot: u8) -> Act {
    match kind {
        0 => Act::Acquire(a),
        1 => Act::AcquireBypassable(a),
        2 => Act::AcquireReserving { least: a, asked: b },
        3 => Act::Upgrade { held: a, wanted: b },
        4 => Act::Poll(Slot(slot)),
        5 => Act::Try(a),
        6 => Act::TryUpgrade { held: a, wanted: b },
        7 => Act::Release(a),
        8 => Act::Drop(Slot(slot)),
        9 => Act::Close,
        10 => Act::Sleep,
        _ => Act::Finish,
    }
}

// The step in a record.
fn step_in(record: [u8; RECORD]) -> Step {
    let [kind, actor, low, high, lower, higher, _, _] = record;
    let act = act(kind, number(low, high), number(lower, higher), low);
    Step {
        actor: TaskId(actor),
        act,
    }
}

fn fairness(kind: u8) -> Fairness {
    match kind {
        0 => Fairness::StrictlyFair,
        _ => Fairness::Unfair,
    }
}

fn maker(kind: u8) -> Option<TaskId> {
    match kind {
        255 => None,
        _ => Some(TaskId(kind)),
    }
}

// The start in the first record.
fn first_in(record: [u8; RECORD]) -> First {
    let [kind, by, tasks, _, low, high, _, _] = record;
    First {
        fairness: fairness(kind),
        stock: number(low, high),
        maker: maker(by),
        tasks: u32::from(tasks),
    }
}

// What a reply counts for in the sum.
fn weight(r: Reply) -> u64 {
    match r {
        Reply::Done => 1,
        Reply::Granted => 2,
        Reply::Pending => 3,
        Reply::Closed => 4,
        Reply::NoPermits => 5,
        Reply::Made(x) => 10 + u64::from(x.0),
        Reply::Refused(_) => 1000,
    }
}

// A step, by a public call or as a step of a run.
fn step<const BY_CALLS: bool>(s: BatchSemaphore, w: &mut LentWords, a: Step) -> Stepped
    requires { Fit s (words_of w.old) w.old.grants.now }
    ensures same { SameWords w.old w.new }
    ensures fit { Fit result.state (words_of w.new) w.new.grants.now }
{
    if BY_CALLS {
        semaphore::step(s, w, a)
    } else {
        stepping::step_on(s, w, a)
    }
}

// The sum of the steps in the records, from a state.
fn run_on<const BY_CALLS: bool>(
    records: &[[u8; RECORD]],
    start: BatchSemaphore,
    w: &mut LentWords,
) -> u64
    requires { Fit start (words_of w.old) w.old.grants.now }
{
    let mut s = start;
    let mut sum: u64 = 0;
    for record in records {
        let r = step::<BY_CALLS>(s, w, step_in(*record));
        sum = sum.wrapping_add(weight(r.reply));
        s = r.state;
    }
    sum
}

// The state that a start gives, refused or accepted.
fn state_of(started: Result<BatchSemaphore, Refused>) -> BatchSemaphore
    ensures { result ≡ state_out started }
{
    match started {
        Ok(state) => state,
        Err(refused) => refused.state,
    }
}

// The sum of the records, from the state that the first starts with.
fn run<const BY_CALLS: bool>(first: [u8; RECORD], records: &[[u8; RECORD]]) -> u64 {
    let mut slots = [0u32; 320];
    let mut tasks = [0u32; 32];
    let mut sizes = [0u32; 64];
    let mut rows = [0u32; 1024];
    let mut last = [0u32; 16];
    let mut makers = [0u32; 512];
    let mut clocks = [0u32; 256];
    let mut grants = [0u32; 96];
    let started = starting::start_spawned(
        first_in(first),
        &mut slots,
        &mut tasks,
        &mut sizes,
        &mut rows,
        &mut last,
        &mut makers,
        &mut clocks,
    );
    let mut w = LentWords {
        slots: &mut slots,
        tasks: &mut tasks,
        sizes: &mut sizes,
        rows: &mut rows,
        last: &mut last,
        makers: &mut makers,
        clocks: &mut clocks,
        grants: &mut grants,
    };
    let state = state_of(started);
    run_on::<BY_CALLS>(records, state, &mut w)
}

// Runs them all, and prints the sum; without a start, 0.
pub fn run_all<const BY_CALLS: bool>(rt: &(impl Input + Print)) -> io::Result<()> {
    let mut src = filling::room::<INPUT>();
    let n = filling::read_full(&mut rt.reader(), &mut src);
    let (records, _) = src[..n].as_chunks::<RECORD>();
    let mut sum: u64 = 0;
    if let Some((first, rest)) = records.split_first() {
        sum = run::<BY_CALLS>(*first, rest);
    }
    print!(rt; "{sum}")
}
