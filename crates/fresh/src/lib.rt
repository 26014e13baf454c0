// Fresh states: `new` with a maker and `const_new` with none; refusal 12. The caller lends all words, whatever stands in them.
#![tactic(auto)]

ghost use Rattle.std.specs.Prelude.{◌≡◌, true, false, ◌||◌, List, ◌++◌, ℕ, ◌+◌, ◌-◌, ◌*◌, ◌≤◌, ◌<◌, length, take, drop, None, Some, Ok, Err};
ghost use Rattle.rules.specs.Sizes.{max_tasks, slot_count, width};
ghost use Rattle.rules.specs.Clock.{empty};
ghost use Rattle.rules.specs.Fresh.{fresh, not_below, refused_fresh};
ghost use Rattle.rules.specs.Steps.{quiet};
ghost use Rattle.rules.specs.Steps.Answer.{done, refused as refused_with};
ghost use Rattle.rules.specs.Runs.{start};
ghost use Rattle.splitting.specs.Asking.{fresh_clocks, fresh_batches};
ghost use Rattle.words.specs.View.{request_words, task_words};
ghost use Rattle.head.specs.View.{Shows};
ghost use Rattle.batches.specs.View.{Lent};
ghost use Rattle.fresh.specs.Starting.{bad_sizes, Cleared, idle, Idle, Heard, Begins, Sized, Gives};

use batches::Batches;
use clock::VectorClock;
use head::Head;
use queue::Waiters;
use rules::{Fairness, TaskId};
use state::BatchSemaphore;

// What 12 gives back: the state that document 01 names, in the words that were lent.
#[derive(Clone, Copy)]
pub struct Refused {
    pub state: BatchSemaphore,
}

// Refusal 12, but for the maker: no tasks, or more than 16, or not a row of clock entries for each.
fn is_bad_start(count: u32, entries: usize) -> bool
    ensures { result ≡ bad_sizes count entries }
{
    let n = count as usize;
    n == 0 || times::TASKS < n || entries != n * n
}

// Refusal 12 of a start that a task makes, or none.
fn is_refused(count: u32, entries: usize, maker: Option<TaskId>) -> bool
    ensures { result ≡ (bad_sizes count entries || not_below count maker) }
{
    if is_bad_start(count, entries) {
        return true;
    }
    match maker {
        Some(t) => count <= u32::from(t.0),
        None => false,
    }
}

// All words are 0.
fn clear(words: &mut [u32])
    ensures { Cleared words.new words.old }
{
    words.fill(0);
}

// ---- who
// Nobody waits.
fn idle_head(fairness: Fairness, closed: bool, stock: u32, n: u32) -> Head
    ensures { Idle result fairness closed stock n }
{
    let waiters = Waiters::new();
    Head {
        fairness,
        closed,
        stock,
        waiters,
        reservation: None,
        tasks: n,
    }
}

// Nobody waits, no slot is in use, and n tasks are Runnable and unwoken.
fn start_who(
    fairness: Fairness,
    closed: bool,
    stock: u32,
    n: u32,
    slots: &mut [u32],
    tasks: &mut [u32],
) -> Head
    requires { (n ≤ max_tasks) × (length slots.old ≡ slot_count * request_words) × (length tasks.old ≡ max_tasks * task_words) }
    ensures { Shows result slots.new tasks.new (idle fairness closed stock n) }
{
    clear(slots);
    clear(tasks);
    idle_head(fairness, closed, stock, n)
}

// ---- when
// The clock whose first n entries stand in a list from `base` on.
fn starting_clock(starts: &[u32], base: usize, n: usize) -> VectorClock
    requires { (n ≤ width) × (base + n ≤ length starts.now) }
    ensures { result.0 ≡ take n (drop base starts.now) ++ empty (width - n) }
{
    let mut out = [0; VectorClock::WIDTH];
    out[..n].copy_from_slice(&starts[base..base + n]);
    VectorClock(out)
}

// The clocks of n tasks, row by row; those past them stay as they are.
fn start_clocks(starts: &[u32], n: usize, clocks: &mut [u32])
    requires { (n ≤ max_tasks) × (length starts.now ≡ n * n) × (length clocks.old ≡ max_tasks * width) }
    ensures { Heard clocks.new clocks.old n (fresh_clocks n n starts.now) }
{
    for i in 0..n {
        let c = starting_clock(starts, i * n, n);
        times::put_clock(clocks, times::TASKS, i, c);
    }
}

// No taking yet; and the batches, set up with the maker's clock where a task makes them.
fn start_when(
    stock: u32,
    starts: &[u32],
    n: usize,
    maker: Option<TaskId>,
    sizes: &mut [u32],
    rows: &mut [u32],
    last: &mut [u32],
    clocks: &mut [u32],
) -> Batches
    requires { (n ≤ max_tasks) × (length starts.now ≡ n * n) × ((t : TaskId) → maker ≡ Some t → t.0 < n) × (Lent sizes.old rows.old) × (length last.old ≡ width) × (length clocks.old ≡ max_tasks * width) }
    ensures { Begins result sizes.new rows.new last.new clocks.new n (fresh_clocks n n starts.now) (fresh_batches stock (fresh_clocks n n starts.now) maker) }
{
    clear(last);
    start_clocks(starts, n, clocks);
    match maker {
        Some(t) => {
            let clock = times::clock_in(clocks, times::TASKS, t.0 as usize);
            Batches::new(sizes, rows, stock, clock)
        }
        None => Batches::const_new(),
    }
}

// ---- both
// What 12 gives back.
fn refuse(
    slots: &mut [u32],
    tasks: &mut [u32],
    sizes: &mut [u32],
    rows: &mut [u32],
    last: &mut [u32],
    makers: &mut [u32],
    clocks: &mut [u32],
) -> Refused
    requires { Sized (record { slots = slots.old; tasks = tasks.old; sizes = sizes.old; rows = rows.old; last = last.old; makers = makers.old; clocks = clocks.old }) }
    ensures { Gives (Err result) (record { slots = slots.new; tasks = tasks.new; sizes = sizes.new; rows = rows.new; last = last.new; makers = makers.new; clocks = clocks.new }) (quiet (refused_with 12) refused_fresh) }
{
    clear(last);
    let fairness = Fairness::StrictlyFair;
    let head = start_who(fairness, true, 0, 0, slots, tasks);
    let batches = Batches::const_new();
    let state = BatchSemaphore { head, batches };
    Refused { state }
}

// What is accepted.
fn begin(
    fairness: Fairness,
    stock: u32,
    n: u32,
    starts: &[u32],
    maker: Option<TaskId>,
    slots: &mut [u32],
    tasks: &mut [u32],
    sizes: &mut [u32],
    rows: &mut [u32],
    last: &mut [u32],
    makers: &mut [u32],
    clocks: &mut [u32],
) -> BatchSemaphore
    requires { (n ≤ max_tasks) × (length starts.now ≡ n * n) × ((t : TaskId) → maker ≡ Some t → t.0 < n) × (Sized (record { slots = slots.old; tasks = tasks.old; sizes = sizes.old; rows = rows.old; last = last.old; makers = makers.old; clocks = clocks.old })) }
    ensures { Gives (Ok result) (record { slots = slots.new; tasks = tasks.new; sizes = sizes.new; rows = rows.new; last = last.new; makers = makers.new; clocks = clocks.new }) (quiet done (fresh (record { fairness = fairness; stock = stock; tasks = n; clocks = starts.now; maker = maker }))) }
{
    let head = start_who(fairness, false, stock, n, slots, tasks);
    let batches = start_when(stock, starts, n as usize, maker, sizes, rows, last, clocks);
    BatchSemaphore { head, batches }
}

// A fresh state, made by a task or by none. Refused: 12.
pub fn start(
    fairness: Fairness,
    stock: u32,
    count: u32,
    starts: &[u32],
    maker: Option<TaskId>,
    slots: &mut [u32; 320],
    tasks: &mut [u32; 32],
    sizes: &mut [u32; 64],
    rows: &mut [u32; 1024],
    last: &mut [u32; 16],
    makers: &mut [u32; 512],
    clocks: &mut [u32; 256],
) -> Result<BatchSemaphore, Refused>
    ensures { Gives result (record { slots = slots.new; tasks = tasks.new; sizes = sizes.new; rows = rows.new; last = last.new; makers = makers.new; clocks = clocks.new }) (start (record { fairness = fairness; stock = stock; tasks = count; clocks = starts.now; maker = maker })) }
{
    if is_refused(count, starts.len(), maker) {
        return Err(refuse(slots, tasks, sizes, rows, last, makers, clocks));
    }
    let state = begin(
        fairness, stock, count, starts, maker, slots, tasks, sizes, rows, last, makers, clocks,
    );
    Ok(state)
}

// A fresh state that a task makes: its batches are set up with the maker's clock. Refused: 12.
pub fn new(
    fairness: Fairness,
    stock: u32,
    count: u32,
    starts: &[u32],
    maker: TaskId,
    slots: &mut [u32; 320],
    tasks: &mut [u32; 32],
    sizes: &mut [u32; 64],
    rows: &mut [u32; 1024],
    last: &mut [u32; 16],
    makers: &mut [u32; 512],
    clocks: &mut [u32; 256],
) -> Result<BatchSemaphore, Refused>
    ensures { Gives result (record { slots = slots.new; tasks = tasks.new; sizes = sizes.new; rows = rows.new; last = last.new; makers = makers.new; clocks = clocks.new }) (start (record { fairness = fairness; stock = stock; tasks = count; clocks = starts.now; maker = Some maker })) }
{
    start(
        fairness,
        stock,
        count,
        starts,
        Some(maker),
        slots,
        tasks,
        sizes,
        rows,
        last,
        makers,
        clocks,
    )
}

// A fresh state that no task makes: its batches are not set up. Refused: 12.
pub fn const_new(
    fairness: Fairness,
    stock: u32,
    count: u32,
    starts: &[u32],
    slots: &mut [u32; 320],
    tasks: &mut [u32; 32],
    sizes: &mut [u32; 64],
    rows: &mut [u32; 1024],
    last: &mut [u32; 16],
    makers: &mut [u32; 512],
    clocks: &mut [u32; 256],
) -> Result<BatchSemaphore, Refused>
    ensures { Gives result (record { slots = slots.new; tasks = tasks.new; sizes = sizes.new; rows = rows.new; last = last.new; makers = makers.new; clocks = clocks.new }) (start (record { fairness = fairness; stock = stock; tasks = count; clocks = starts.now; maker = None })) }
{
    start(
        fairness, stock, count, starts, None, slots, tasks, sizes, rows, last, makers, clocks,
    )
}
