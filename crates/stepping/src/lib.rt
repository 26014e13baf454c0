// A step of a batch semaphore that counts on what 14 does not refuse: planned, checked, and then refused or taken, by who and then by when.
// The struct goes by value, the words are lent. An array that a function only reads is borrowed by name first, as `&mut *w.slots`: handed on
// straight out of the struct, the check no longer knows after the call what stands in it.
#![tactic(auto)]

ghost use Rattle.std.specs.Prelude.{◌≡◌, true, ◌*◌, ◌≤◌, length};
ghost use Rattle.rules.specs.Sizes.{max_tasks, slot_count, width};
ghost use Rattle.words.specs.View.{task_words};
ghost use Rattle.replies.specs.declared.Reply.TheVariants.{Refused};
ghost use Rattle.replies.specs.Answers.{answer_of};
ghost use Rattle.splitting.specs.Times.{timing_of};
ghost use Rattle.times.specs.View.{AbleAtRest};
ghost use Rattle.choosing.specs.Choice.{moves_in};
ghost use Rattle.state.specs.View.{words_of, Fit, SameWords};
ghost use Rattle.stepping.specs.Contract.{Checks, Due, RestTaken, Taken, StepsOn};

use planning::Plan;
use replies::{Refusal, Reply};
use rules::{Step, TaskId};
use state::{BatchSemaphore, LentWords, Stepped};

// A step that is refused: the very struct that came in.
fn refuse(s: BatchSemaphore, why: Refusal) -> Stepped
    ensures { result ≡ record { reply = Refused why; count = 0; state = s } }
{
    Stepped {
        reply: Reply::Refused(why),
        count: 0,
        state: s,
    }
}

// The first refusal of a step that was planned: the actor's, then what the plan met, then those of when.
fn check(
    s: BatchSemaphore,
    tasks: &[u32],
    clocks: &[u32],
    me: TaskId,
    plan: Plan,
) -> Result<(), Refusal>
    requires { (s.head.tasks ≤ max_tasks) × (length tasks.now ≡ max_tasks * task_words) × (length clocks.now ≡ max_tasks * width) }
    ensures { Checks result s tasks.now clocks.now me plan }
{
    planning::check_actor(s.head, tasks, me)?;
    plan.check?;
    times::times_refusal(s.batches, clocks, me, plan.back, plan.ticks)
}

// The times of a step that leaves the head as it is, and whose effect is done.
fn rest(
    s: BatchSemaphore,
    last: &[u32],
    makers: &mut [u32],
    clocks: &mut [u32],
    a: Step,
    reply: Reply,
) -> Stepped
    requires { (length last.now ≡ width) × (length makers.old ≡ slot_count * width) × (length clocks.old ≡ max_tasks * width) × (AbleAtRest (timing_of a.act) a.actor (answer_of reply) clocks.old) }
    ensures { RestTaken s a reply result last.now makers.new clocks.new makers.old clocks.old }
{
    times::rest_times(last, makers, clocks, a, reply);
    Stepped {
        reply,
        count: 0,
        state: s,
    }
}

// A step that moves permits, the queue or the reservation: what who does, and then when.
fn carry_out(s: BatchSemaphore, w: &mut LentWords, a: Step, plan: Plan) -> Stepped
    requires { (Due s (words_of w.old) w.old.grants.now a plan) × (moves_in plan.choice ≡ true) }
    ensures same { SameWords w.old w.new }
    ensures taken { Taken s (words_of w.old) a result (words_of w.new) w.new.grants.now }
{
    let head = s.head;
    let batches = s.batches;
    let choice = plan.choice;
    let done = doing::effect(head, w.slots, w.tasks, w.grants, a.actor, choice);
    let reply = done.reply;
    let grants = &mut *w.grants;
    let left = times::times_step(
        batches, w.sizes, w.rows, w.last, w.makers, w.clocks, a, reply, head.stock, plan.back,
        grants, done.count,
    );
    let after = done.head;
    let state = BatchSemaphore {
        head: after,
        batches: left,
    };
    Stepped {
        reply,
        count: done.count,
        state,
    }
}

// A step that no refusal is met by. Where it leaves the head as it is, nothing by value is put together anew.
fn accept(s: BatchSemaphore, w: &mut LentWords, a: Step, plan: Plan) -> Stepped
    requires { Due s (words_of w.old) w.old.grants.now a plan }
    ensures same { SameWords w.old w.new }
    ensures taken { Taken s (words_of w.old) a result (words_of w.new) w.new.grants.now }
{
    match resting::effect_at_rest(w.slots, w.tasks, s.head.tasks, a.actor, plan.choice) {
        Some(reply) => {
            let last = &mut *w.last;
            rest(s, last, w.makers, w.clocks, a, reply)
        }
        None => carry_out(s, w, a, plan),
    }
}

// A step that counts on what 14 does not refuse, and gives such a state back: for whoever runs many.
pub fn step_on(s: BatchSemaphore, w: &mut LentWords, a: Step) -> Stepped
    requires { Fit s (words_of w.old) w.old.grants.now }
    ensures same { SameWords w.old w.new }
    ensures steps { StepsOn s (words_of w.old) w.old.grants.now a result (words_of w.new) w.new.grants.now }
{
    let slots = &mut *w.slots;
    let plan = planning::plan_act(s.head, slots, a.act);
    let tasks = &mut *w.tasks;
    let clocks = &mut *w.clocks;
    match check(s, tasks, clocks, a.actor, plan) {
        Ok(()) => accept(s, w, a, plan),
        Err(why) => refuse(s, why),
    }
}
