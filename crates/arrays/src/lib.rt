// The calls with all words by value, for what need not be quick: what tries wrong answers against their contracts is checked many times, and
// is checked the sooner for it; and what writes our side of the comparison is the shorter.
#![tactic(auto)]

ghost use Rattle.std.specs.Prelude.{◌≡◌, None, Some};
ghost use Rattle.rules.specs.Runs.{start};
ghost use Rattle.rules.specs.Steps.{◌does◌};
ghost use Rattle.fresh.specs.Starting.{Gives};
ghost use Rattle.points.specs.Told.{told_by, answer_to};
ghost use Rattle.arrays.specs.Arrays.{words_in, Owes};

use fresh::Refused;
use replies::Refusal;
use rules::{Act, Fairness, Question, Step, TaskId};
use state::{BatchSemaphore, LentWords, ReadWords, Stepped};

// All that a call is lent.
#[derive(Clone, Copy)]
pub struct Arrays {
    pub slots: [u32; 320],
    pub tasks: [u32; 32],
    pub sizes: [u32; 64],
    pub rows: [u32; 1024],
    pub last: [u32; 16],
    pub makers: [u32; 512],
    pub clocks: [u32; 256],
    pub grants: [u32; 96],
}

// What a call answers, and what it leaves in the arrays.
#[derive(Clone, Copy)]
pub struct Came {
    pub stepped: Stepped,
    pub arrays: Arrays,
}

// A start, and what it leaves in the arrays.
#[derive(Clone, Copy)]
pub struct StartedArrays {
    pub started: Result<BatchSemaphore, Refused>,
    pub arrays: Arrays,
}

pub fn step(s: BatchSemaphore, w: Arrays, a: Step) -> Came
    ensures { Owes s w a result }
{
    let mut arrays = w;
    let mut lent = LentWords {
        slots: &mut arrays.slots,
        tasks: &mut arrays.tasks,
        sizes: &mut arrays.sizes,
        rows: &mut arrays.rows,
        last: &mut arrays.last,
        makers: &mut arrays.makers,
        clocks: &mut arrays.clocks,
        grants: &mut arrays.grants,
    };
    let stepped = semaphore::step(s, &mut lent, a);
    Came { stepped, arrays }
}

// The step of a task's act.
pub fn act(s: BatchSemaphore, w: Arrays, me: TaskId, act: Act) -> Came
    ensures { Owes s w (me does act) result }
{
    step(s, w, Step { actor: me, act })
}

pub fn point(s: BatchSemaphore, w: Arrays, me: TaskId, q: Question) -> Result<bool, Refusal>
    ensures { told_by result ≡ answer_to s (words_in w) w.grants me q }
{
    let read = ReadWords {
        slots: &w.slots,
        tasks: &w.tasks,
        sizes: &w.sizes,
        rows: &w.rows,
        last: &w.last,
        makers: &w.makers,
        clocks: &w.clocks,
        grants: &w.grants,
    };
    points::point(s, read, me, q)
}

// A fresh state that a task makes.
pub fn new(
    fairness: Fairness,
    stock: u32,
    count: u32,
    starts: &[u32],
    maker: TaskId,
) -> StartedArrays
    ensures { Gives result.started (words_in result.arrays) (start (record { fairness = fairness; stock = stock; tasks = count; clocks = starts.now; maker = Some maker })) }
{
    let mut slots = [0u32; 320];
    let mut tasks = [0u32; 32];
    let mut sizes = [0u32; 64];
    let mut rows = [0u32; 1024];
    let mut last = [0u32; 16];
    let mut makers = [0u32; 512];
    let mut clocks = [0u32; 256];
    let started = fresh::new(
        fairness,
        stock,
        count,
        starts,
        maker,
        &mut slots,
        &mut tasks,
        &mut sizes,
        &mut rows,
        &mut last,
        &mut makers,
        &mut clocks,
    );
    let arrays = Arrays {
        slots,
        tasks,
        sizes,
        rows,
        last,
        makers,
        clocks,
        grants: [0; 96],
    };
    StartedArrays { started, arrays }
}

// A fresh state that no task makes.
pub fn const_new(fairness: Fairness, stock: u32, count: u32, starts: &[u32]) -> StartedArrays
    ensures { Gives result.started (words_in result.arrays) (start (record { fairness = fairness; stock = stock; tasks = count; clocks = starts.now; maker = None })) }
{
    let mut slots = [0u32; 320];
    let mut tasks = [0u32; 32];
    let mut sizes = [0u32; 64];
    let mut rows = [0u32; 1024];
    let mut last = [0u32; 16];
    let mut makers = [0u32; 512];
    let mut clocks = [0u32; 256];
    let started = fresh::const_new(
        fairness,
        stock,
        count,
        starts,
        &mut slots,
        &mut tasks,
        &mut sizes,
        &mut rows,
        &mut last,
        &mut makers,
        &mut clocks,
    );
    let arrays = Arrays {
        slots,
        tasks,
        sizes,
        rows,
        last,
        makers,
        clocks,
        grants: [0; 96],
    };
    StartedArrays { started, arrays }
}
