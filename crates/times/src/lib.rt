// When permits change hands: the clocks of tasks and requests, the batches and the clock of the last taking, changed from a step, its
// answer and its grants in order. Where the ring stands is by value; all else is lent: `sizes` and `rows` of the batches, `last` of the
// last taking, `makers` of the requests, `clocks` of the tasks.
#![tactic(auto)]

ghost use Rattle.std.specs.Prelude.{◌≡◌, Bool, true, false, ◌&&◌, List, ℕ, ◌+◌, ◌*◌, ◌≤◌, ◌<◌, leb, ltb, length, get_or, set};
ghost use Rattle.rules.specs.Sizes.{width, max_tasks, slot_count, largest};
ghost use Rattle.rules.specs.Clock.{join, tick};
ghost use Rattle.rules.specs.Refusals.{full};
ghost use Rattle.replies.specs.Answers.{given, answer_of};
ghost use Rattle.splitting.specs.Kept.{take_queued, take_each, grant_each, fail_try, tried, release, store, kept_step};
ghost use Rattle.batches.specs.View.{Lent, WellFormed, stands_in};
ghost use Rattle.batches.specs.declared.Batches.{Batches};
ghost use Rattle.words.specs.View.{grant_of, grants_of};
ghost use Rattle.splitting.specs.Times.{timing_of};
ghost use Rattle.times.specs.View.{Able, taken_as, is_failed, refusal_kept, clocks_at, clock_in, kept_of, Shows, MayTick, Ticked, AbleAtRest, RestsInTimes};

use batches::Batches;
use clock::VectorClock;
use replies::{Refusal, Reply};
use rules::{Act, Step, TaskId};
use splitting::Timing;
use words::GrantWords;

pub const TASKS: usize = 16;

pub const SLOTS: usize = 32;

// ---- one array of clocks
// No array types: a call may be lent words of any length, and 14 answers for those of another (`other_lengths`).
// The clock numbered i of n; the empty clock past them.
pub fn clock_in(flat: &[u32], n: usize, i: usize) -> VectorClock
    requires { length flat.now ≡ n * width }
    ensures { result.0 ≡ clock_in n flat.now i }
{
    if n <= i {
        return VectorClock::new();
    }
    batches::clock_at(flat, i)
}

// The clock numbered i of n is set; past them nothing is.
pub fn put_clock(flat: &mut [u32], n: usize, i: usize, clock: VectorClock)
    requires { length flat.old ≡ n * width }
    ensures { clocks_at n flat.new ≡ set (clocks_at n flat.old) i clock.0 }
{
    if n <= i {
        return;
    }
    batches::store_clock(flat, i, clock);
}

// A task joins a clock.
fn join_task(clocks: &mut [u32], t: u32, clock: VectorClock)
    requires { length clocks.old ≡ max_tasks * width }
    ensures { clocks_at max_tasks clocks.new ≡ set (clocks_at max_tasks clocks.old) t (join (clock_in max_tasks clocks.old t) clock.0) }
{
    let i = t as usize;
    let after = clock_in(clocks, TASKS, i).update(clock);
    put_clock(clocks, TASKS, i, after);
}

// The actor ticks; its clock.
fn tick_task(clocks: &mut [u32], me: TaskId) -> VectorClock
    requires { (length clocks.old ≡ max_tasks * width) × (MayTick me clocks.old) }
    ensures { Ticked result clocks.new me clocks.old }
{
    let i = me.0 as usize;
    let before = clock_in(clocks, TASKS, i);
    let after = before.increment(me);
    put_clock(clocks, TASKS, i, after);
    after
}

// The actor, whose clock was read before, ticks and joins a clock.
fn put_ticked(clocks: &mut [u32], me: TaskId, before: VectorClock, clock: VectorClock)
    requires { (length clocks.old ≡ max_tasks * width) × (MayTick me clocks.old) × (before.0 ≡ clock_in max_tasks clocks.old me.0) }
    ensures { clocks_at max_tasks clocks.new ≡ set (clocks_at max_tasks clocks.old) me.0 (join (tick me.0 (clock_in max_tasks clocks.old me.0)) clock.0) }
{
    let i = me.0 as usize;
    let ticked = before.increment(me);
    let after = ticked.update(clock);
    put_clock(clocks, TASKS, i, after);
}

// ---- grants of the queue
// The request's own clock goes into the last taking's, batches are eaten, and the task joins their clocks.
fn apply_grant(
    b: Batches,
    sizes: &mut [u32],
    rows: &mut [u32],
    last: &mut [u32],
    makers: &[u32],
    clocks: &mut [u32],
    stock: u32,
    g: GrantWords,
) -> Batches
    requires { (Lent sizes.old rows.old) × (WellFormed b) × (length last.old ≡ width) × (length makers.now ≡ slot_count * width) × (length clocks.old ≡ max_tasks * width) }
    ensures { Shows result sizes.new rows.new last.new makers.now clocks.new (take_queued stock (grant_of g).taker (grant_of g).count (grant_of g).task (kept_of b sizes.old rows.old last.old makers.now clocks.old)) }
{
    if 256 <= g.taker {
        return b;
    }
    let x = g.taker as usize;
    let own = clock_in(makers, SLOTS, x);
    let eaten = b.take(sizes, rows, last, stock, g.count, own);
    join_task(clocks, g.task, eaten.clock);
    eaten.batches
}

// A step's grants, one after another.
pub fn apply_grants(
    b: Batches,
    sizes: &mut [u32],
    rows: &mut [u32],
    last: &mut [u32],
    makers: &[u32],
    clocks: &mut [u32],
    stock: u32,
    grants: &[u32],
    count: usize,
) -> Batches
    requires { (Lent sizes.old rows.old) × (WellFormed b) × (length last.old ≡ width) × (length makers.now ≡ slot_count * width) × (length clocks.old ≡ max_tasks * width) × (count ≤ slot_count) × (length grants.now ≡ slot_count * 3) }
    ensures { Shows result sizes.new rows.new last.new makers.now clocks.new (grant_each stock (grants_of count grants.now) (kept_of b sizes.old rows.old last.old makers.now clocks.old)) }
{
    let mut out = b;
    for i in 0..count {
        let g = words::grant_at(grants, i);
        let next = apply_grant(out, sizes, rows, last, makers, clocks, stock, g);
        out = next;
    }
    out
}

// ---- the actor
// The actor takes n: its clock before the tick goes into the last taking's; it ticks, and joins the clocks of the batches.
fn take_as(
    b: Batches,
    sizes: &mut [u32],
    rows: &mut [u32],
    last: &mut [u32],
    clocks: &mut [u32],
    stock: u32,
    n: u32,
    me: TaskId,
) -> Batches
    requires { (Lent sizes.old rows.old) × (WellFormed b) × (length last.old ≡ width) × (length clocks.old ≡ max_tasks * width) × (MayTick me clocks.old) }
    ensures { (makers : List ℕ) → Shows result sizes.new rows.new last.new makers clocks.new (taken_as stock me n (kept_of b sizes.old rows.old last.old makers clocks.old)) }
{
    let i = me.0 as usize;
    let mine = clock_in(clocks, TASKS, i);
    let eaten = b.take(sizes, rows, last, stock, n, mine);
    put_ticked(clocks, me, mine, eaten.clock);
    eaten.batches
}

// The actor's own taking, if there is one.
fn take_granted(
    b: Batches,
    sizes: &mut [u32],
    rows: &mut [u32],
    last: &mut [u32],
    clocks: &mut [u32],
    stock: u32,
    grants: &[u32],
    count: usize,
    me: TaskId,
) -> Batches
    requires { (Lent sizes.old rows.old) × (WellFormed b) × (length last.old ≡ width) × (length clocks.old ≡ max_tasks * width) × (length grants.now ≡ slot_count * 3) × (count ≤ 1) × (0 < count → MayTick me clocks.old) }
    ensures { (makers : List ℕ) → Shows result sizes.new rows.new last.new makers clocks.new (take_each stock me (grants_of count grants.now) (kept_of b sizes.old rows.old last.old makers clocks.old)) }
{
    if count == 0 {
        return b;
    }
    let g = words::grant_at(grants, 0);
    take_as(b, sizes, rows, last, clocks, stock, g.count, me)
}

// A try that takes nothing: the actor ticks, and joins the last taking's clock.
fn fail_try(last: &[u32], clocks: &mut [u32], me: TaskId)
    requires { (length last.now ≡ width) × (length clocks.old ≡ max_tasks * width) × (MayTick me clocks.old) }
    ensures { (b : Batches) (sizes rows makers : List ℕ) → kept_of b sizes rows last.now makers clocks.new ≡ fail_try me (kept_of b sizes rows last.now makers clocks.old) }
{
    let latest = batches::clock_at(last, 0);
    let i = me.0 as usize;
    let mine = clock_in(clocks, TASKS, i);
    put_ticked(clocks, me, mine, latest);
}

// The actor gives n back: none is nothing; else it ticks, and a batch is added with its clock.
fn give_back(
    b: Batches,
    sizes: &mut [u32],
    rows: &mut [u32],
    clocks: &mut [u32],
    stock: u32,
    n: u32,
    me: TaskId,
) -> Batches
    requires { (Lent sizes.old rows.old) × (WellFormed b) × (length clocks.old ≡ max_tasks * width) × (0 < n → MayTick me clocks.old) × (0 < n → full (stands_in b sizes.old rows.old) ≡ false) }
    ensures { (last makers : List ℕ) → Shows result sizes.new rows.new last makers clocks.new (release stock me n (kept_of b sizes.old rows.old last makers clocks.old)) }
{
    if n == 0 {
        return b;
    }
    let mine = tick_task(clocks, me);
    b.add(sizes, rows, stock, n, mine)
}

// The clock of its maker goes to the slot that was filled.
fn make(makers: &mut [u32], clocks: &[u32], reply: Reply, me: TaskId)
    requires { (length makers.old ≡ slot_count * width) × (length clocks.now ≡ max_tasks * width) }
    ensures { (b : Batches) (sizes rows last : List ℕ) → kept_of b sizes rows last makers.new clocks.now ≡ store (answer_of reply) me (kept_of b sizes rows last makers.old clocks.now) }
{
    if let Reply::Made(x) = reply {
        let mine = clock_in(clocks, TASKS, me.0 as usize);
        put_clock(makers, SLOTS, x.0 as usize, mine);
    }
}

// ---- refusals
// The actor's own entry.
fn own_entry(clocks: &[u32], me: TaskId) -> u32
    requires { length clocks.now ≡ max_tasks * width }
    ensures { result ≡ get_or (clock_in max_tasks clocks.now me.0) me.0 0 }
{
    clock_in(clocks, TASKS, me.0 as usize).get(me)
}

// A batch more, and no room.
fn no_room(b: Batches, back: u32) -> bool
    ensures { (sizes rows : List ℕ) → result ≡ (ltb 0 back && full (stands_in b sizes rows)) }
{
    0 < back && b.is_full()
}

// A tick more, and no number for it.
fn last_tick(clocks: &[u32], me: TaskId, ticks: bool) -> bool
    requires { length clocks.now ≡ max_tasks * width }
    ensures { result ≡ (ticks && leb largest (get_or (clock_in max_tasks clocks.now me.0) me.0 0)) }
{
    ticks && u32::MAX <= own_entry(clocks, me)
}

// 9, then 11, for a step that gives so many back, and whose actor ticks or not.
pub fn times_refusal(
    b: Batches,
    clocks: &[u32],
    me: TaskId,
    back: u32,
    ticks: bool,
) -> Result<(), Refusal>
    requires { length clocks.now ≡ max_tasks * width }
    ensures { (k : ℕ) (sizes rows last makers : List ℕ) → given result ≡ refusal_kept me (record { stock = k; back = back; ticks = ticks }) (kept_of b sizes rows last makers clocks.now) }
{
    if no_room(b, back) {
        return Err(Refusal::NoRoom);
    }
    if last_tick(clocks, me, ticks) {
        return Err(Refusal::LastTick);
    }
    Ok(())
}

// ---- a step
fn timing_of(act: Act) -> Timing
    ensures { result ≡ timing_of act }
{
    match act {
        Act::Acquire(_)
        | Act::AcquireBypassable(_)
        | Act::AcquireReserving { .. }
        | Act::Upgrade { .. } => Timing::Makes,
        Act::Poll(_) => Timing::Takes,
        Act::Try(_) | Act::TryUpgrade { .. } => Timing::Tries,
        Act::Release(_) | Act::Drop(_) => Timing::Gives,
        Act::Close | Act::Sleep | Act::Finish => Timing::Stays,
    }
}

// A try that took nothing.
fn is_failed(r: Reply) -> bool
    ensures { result ≡ is_failed (answer_of r) }
{
    matches!(r, Reply::Closed | Reply::NoPermits)
}

// A try: the actor takes, or ticks and joins.
fn try_times(
    b: Batches,
    sizes: &mut [u32],
    rows: &mut [u32],
    last: &mut [u32],
    clocks: &mut [u32],
    stock: u32,
    grants: &[u32],
    count: usize,
    me: TaskId,
    reply: Reply,
) -> Batches
    requires { (Lent sizes.old rows.old) × (WellFormed b) × (length last.old ≡ width) × (length clocks.old ≡ max_tasks * width) × (length grants.now ≡ slot_count * 3) × (count ≤ 1) × (MayTick me clocks.old) × (is_failed (answer_of reply) ≡ true → count ≡ 0) }
    ensures { (makers : List ℕ) → Shows result sizes.new rows.new last.new makers clocks.new (tried (answer_of reply) me (take_each stock me (grants_of count grants.now) (kept_of b sizes.old rows.old last.old makers clocks.old))) }
{
    if is_failed(reply) {
        fail_try(last, clocks, me);
        return b;
    }
    take_granted(b, sizes, rows, last, clocks, stock, grants, count, me)
}

// A release or a drop: so many are given back, and the queue's grants are applied.
fn give_times(
    b: Batches,
    sizes: &mut [u32],
    rows: &mut [u32],
    last: &mut [u32],
    makers: &[u32],
    clocks: &mut [u32],
    stock: u32,
    back: u32,
    grants: &[u32],
    count: usize,
    me: TaskId,
) -> Batches
    requires { (Lent sizes.old rows.old) × (WellFormed b) × (length last.old ≡ width) × (length makers.now ≡ slot_count * width) × (length clocks.old ≡ max_tasks * width) × (count ≤ slot_count) × (length grants.now ≡ slot_count * 3) × (0 < back → MayTick me clocks.old) × (0 < back → full (stands_in b sizes.old rows.old) ≡ false) }
    ensures { Shows result sizes.new rows.new last.new makers.now clocks.new (grant_each stock (grants_of count grants.now) (release stock me back (kept_of b sizes.old rows.old last.old makers.now clocks.old))) }
{
    let given = give_back(b, sizes, rows, clocks, stock, back, me);
    apply_grants(
        given, sizes, rows, last, makers, clocks, stock, grants, count,
    )
}

// Whatever a step that is not refused does to the times.
pub fn times_step(
    b: Batches,
    sizes: &mut [u32],
    rows: &mut [u32],
    last: &mut [u32],
    makers: &mut [u32],
    clocks: &mut [u32],
    step: Step,
    reply: Reply,
    stock: u32,
    back: u32,
    grants: &[u32],
    count: usize,
) -> Batches
    requires { (Lent sizes.old rows.old) × (WellFormed b) × (length last.old ≡ width) × (length makers.old ≡ slot_count * width) × (length clocks.old ≡ max_tasks * width) × (length grants.now ≡ slot_count * 3) × (Able (timing_of step.act) step.actor (answer_of reply) count back clocks.old (stands_in b sizes.old rows.old)) }
    ensures { (ticks : Bool) → Shows result sizes.new rows.new last.new makers.new clocks.new (kept_step step (answer_of reply) (grants_of count grants.now) (record { stock = stock; back = back; ticks = ticks }) (kept_of b sizes.old rows.old last.old makers.old clocks.old)) }
{
    let me = step.actor;
    let change = timing_of(step.act);
    match change {
        Timing::Makes => {
            make(makers, clocks, reply, me);
            b
        }
        Timing::Takes => take_granted(b, sizes, rows, last, clocks, stock, grants, count, me),
        Timing::Tries => try_times(
            b, sizes, rows, last, clocks, stock, grants, count, me, reply,
        ),
        Timing::Gives => give_times(
            b, sizes, rows, last, makers, clocks, stock, back, grants, count, me,
        ),
        Timing::Stays => b,
    }
}

// Whatever a step that is not refused does to the times where it leaves permits, queue and reservation as they are.
pub fn rest_times(last: &[u32], makers: &mut [u32], clocks: &mut [u32], step: Step, reply: Reply)
    requires { (length last.now ≡ width) × (length makers.old ≡ slot_count * width) × (length clocks.old ≡ max_tasks * width) × (AbleAtRest (timing_of step.act) step.actor (answer_of reply) clocks.old) }
    ensures { RestsInTimes step (answer_of reply) last.now makers.new clocks.new makers.old clocks.old }
{
    let me = step.actor;
    let change = timing_of(step.act);
    match change {
        Timing::Makes => make(makers, clocks, reply, me),
        Timing::Tries => fail_try(last, clocks, me),
        Timing::Takes | Timing::Gives | Timing::Stays => {}
    }
}
