// What is done by the steps that leave the head as it is: makings, polls that change only marks, failed tries, drops of what neither waits
// nor holds, sleeps and finishes. They are apart for speed: nothing by value has to be put together anew.
#![tactic(auto)]

ghost use Rattle.std.specs.Prelude.{◌≡◌, List, ℕ, ◌*◌, ◌≤◌, ◌<◌, length};
ghost use Rattle.rules.specs.Sizes.{max_tasks, slot_count};
ghost use Rattle.rules.specs.declared.TaskId.{TaskId};
ghost use Rattle.words.specs.View.{request_words, task_words};
ghost use Rattle.choosing.specs.declared.Choice.TheVariants.{Makes, Polls, Tries, Drops};
ghost use Rattle.resting.specs.Resting.{RestsBy, SlotsRest, MarksRest, Alters, HasSlot};

use choosing::Choice;
use records::{Marking, Request, Task};
use replies::Reply;
use rules::{Ask, Direct, Dropping, Polling, Slot, TaskId};

// Each function answers the reply of a step that leaves the head as it is, or `None` where nothing is done yet: the step moves permits, the queue
// or the reservation.

// A request of the task, in the slot numbered i.
fn make(slots: &mut [u32], me: TaskId, i: usize, ask: Ask) -> Option<Reply>
    requires { (length slots.old ≡ slot_count * request_words) × (i < slot_count) }
    ensures { SlotsRest me (Makes i ask) result slots.new slots.old }
{
    let request = Request::new(ask, me);
    words::put_request(slots, i, request);
    let x = Slot(i as u8);
    Some(Reply::Made(x))
}

// A poll that only marks its request.
fn mark(slots: &mut [u32], x: Slot, m: Marking, reply: Reply) -> Option<Reply>
    requires { length slots.old ≡ slot_count * request_words }
    ensures { MarksRest x m reply result slots.new slots.old }
{
    words::mark(slots, x, m);
    Some(reply)
}

// A poll, as it was decided.
fn poll(slots: &mut [u32], me: TaskId, x: Slot, p: Polling) -> Option<Reply>
    requires { length slots.old ≡ slot_count * request_words }
    ensures { (asked : ℕ) → SlotsRest me (Polls x asked p) result slots.new slots.old }
{
    match p {
        Polling::Holds => mark(slots, x, Marking::PollsGranted, Reply::Granted),
        Polling::IsClosed => mark(slots, x, Marking::PollsClosed, Reply::Closed),
        Polling::Stays => mark(slots, x, Marking::PollsPending(me), Reply::Pending),
        Polling::QueuesBack
        | Polling::QueuesFront
        | Polling::TakesReserved
        | Polling::Takes
        | Polling::Reserves => None,
    }
}

// A try, as the direct rule decided.
fn try_acquire(d: Direct) -> Option<Reply>
    ensures { (me : TaskId) (n : ℕ) (ss : List ℕ) → SlotsRest me (Tries n d) result ss ss }
{
    match d {
        Direct::Shut => Some(Reply::Closed),
        Direct::NoPermits => Some(Reply::NoPermits),
        Direct::Take => None,
    }
}

// A drop, as it was decided.
fn drop_request(slots: &mut [u32], x: Slot, d: Dropping) -> Option<Reply>
    requires { length slots.old ≡ slot_count * request_words }
    ensures { (me : TaskId) (back : ℕ) → SlotsRest me (Drops x back d) result slots.new slots.old }
{
    match d {
        Dropping::Leaving | Dropping::Unreserving | Dropping::Returning => None,
        Dropping::Nothing => {
            words::free(slots, x);
            Some(Reply::Done)
        }
    }
}

// A step that changes only the actor's own record.
fn alter<F: FnOnce(Task) -> Task>(tasks: &mut [u32], count: u32, me: TaskId, f: F) -> Option<Reply>
    requires words { (count ≤ max_tasks) × (length tasks.old ≡ max_tasks * task_words) }
    requires calls { F.IsAlwaysCallable f }
    ensures { Alters (F.post f) me count result tasks.new tasks.old }
{
    let t = me.0 as u32;
    let task = words::task_at(tasks, count, t);
    words::put_task(tasks, count, t, f(task));
    Some(Reply::Done)
}

// The effect of what a step comes to, where it leaves the head as it is.
pub fn effect_at_rest(
    slots: &mut [u32],
    tasks: &mut [u32],
    count: u32,
    me: TaskId,
    c: Choice,
) -> Option<Reply>
    requires { (length slots.old ≡ slot_count * request_words) × (count ≤ max_tasks) × (length tasks.old ≡ max_tasks * task_words) × HasSlot c }
    ensures { RestsBy me c count result slots.new tasks.new slots.old tasks.old }
{
    match c {
        Choice::Makes { slot, ask } => make(slots, me, slot, ask),
        Choice::Polls { slot, polling, .. } => poll(slots, me, slot, polling),
        Choice::Tries { direct, .. } => try_acquire(direct),
        Choice::Drops { slot, dropping, .. } => drop_request(slots, slot, dropping),
        Choice::Sleeps => alter(tasks, count, me, |t| t.sleep_unless_woken()),
        Choice::Finishes => alter(tasks, count, me, |t| t.finish()),
        Choice::Releases(_) | Choice::Closes => None,
    }
}
