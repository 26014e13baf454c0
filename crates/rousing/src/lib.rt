// Who is woken and who is blocked again, after the source's functions: waking the unfair, reblocking, cancelling a reservation.
#![tactic(auto)]

ghost use Rattle.std.specs.Prelude.{◌≡◌, not, ◌&&◌, ◌||◌, ◌*◌, ◌≤◌, ltb, eqb, length, None};
ghost use Rattle.rules.specs.Sizes.{max_tasks, slot_count};
ghost use Rattle.splitting.specs.Plain.{unblocked, wakened, with_reservation, ◌▷◌};
ghost use Rattle.splitting.specs.Who.{wake_unfair, reblock};
ghost use Rattle.queue.specs.View.{waiters_of};
ghost use Rattle.records.specs.View.{task_seen, request_of};
ghost use Rattle.words.specs.View.{request_words, task_words, slots_of, tasks_of, TasksShow};
ghost use Rattle.head.specs.View.{plain_of, Shaped, Shows};
ghost use Rattle.rousing.specs.Parts.{request_in, concerns, change_of, owner_changed, for_each, woken_if_asked};

use head::Head;
use queue::Waiters;
use records::{Request, Task};
use rules::{Slot, TaskId};

// What happens to the task of a queued request, unless it is finished: a value and no closure, since contracts tell by it what becomes of all.
#[derive(Clone, Copy)]
pub enum Change {
    // It is woken: everybody may go on.
    Wake,
    // It is woken if the stock covers the request's least: whoever can go on races.
    WakeIfEnough(u32),
    // It is blocked if the request cannot go on, the permits being reserved or too few for its least; but not the acting task.
    Reblock {
        reserved: bool,
        stock: u32,
        me: TaskId,
    },
}

// Whether a queued request cannot go on, and its task is not the acting one.
fn is_held_up(waiter: Request, reserved: bool, stock: u32, me: TaskId) -> bool
    ensures { result ≡ (not (eqb waiter.task me.0) && (reserved || ltb stock waiter.ask.least)) }
{
    waiter.task != me.0 as u32 && (reserved || stock < waiter.ask.least)
}

// Whether the change is for the task of such a request.
fn concerned(waiter: Request, change: Change) -> bool
    ensures { result ≡ concerns change (request_of waiter) }
{
    match change {
        Change::Wake => true,
        Change::WakeIfEnough(stock) => waiter.ask.least <= stock,
        Change::Reblock {
            reserved,
            stock,
            me,
        } => is_held_up(waiter, reserved, stock, me),
    }
}

fn changed(owner: Task, change: Change) -> Task
    ensures { task_seen result ≡ change_of change (task_seen owner) }
{
    match change {
        Change::Wake | Change::WakeIfEnough(_) => owner.unblock().wake(),
        Change::Reblock { .. } => owner.block(),
    }
}

// The task of the request in a slot is changed, if the change concerns it and it is not finished.
pub fn change_owner(slots: &[u32], tasks: &mut [u32], count: u32, x: Slot, change: Change)
    requires { (count ≤ max_tasks) × (length slots.now ≡ slot_count * request_words) × (length tasks.old ≡ max_tasks * task_words) }
    ensures { TasksShow count tasks.new tasks.old (owner_changed change (request_in (slots_of slots.now) x) (tasks_of count tasks.old)) }
{
    let waiter = words::request_at(slots, x);
    let owner = words::task_at(tasks, count, waiter.task);
    if concerned(waiter, change) && !owner.finished() {
        words::put_task(tasks, count, waiter.task, changed(owner, change));
    }
}

// The same for every queued request, from the front.
fn change_owners(waiters: Waiters, slots: &[u32], tasks: &mut [u32], count: u32, change: Change)
    requires { (count ≤ max_tasks) × (length slots.now ≡ slot_count * request_words) × (length tasks.old ≡ max_tasks * task_words) }
    ensures { TasksShow count tasks.new tasks.old (for_each change (slots_of slots.now) (waiters_of waiters) (tasks_of count tasks.old)) }
{
    for &x in waiters.in_use() {
        change_owner(slots, tasks, count, x, change);
    }
}

// The task of the request that has the reservation is unblocked and woken, if the stock covers its ask.
fn wake_holder(holder: Request, stock: u32, tasks: &mut [u32], count: u32)
    requires { (count ≤ max_tasks) × (length tasks.old ≡ max_tasks * task_words) }
    ensures { TasksShow count tasks.new tasks.old (woken_if_asked stock (request_of holder) (tasks_of count tasks.old)) }
{
    if holder.ask.asked <= stock {
        words::rouse(tasks, count, holder.task);
    }
}

// The reservation is cleared, and whoever is queued and can now go on is woken.
pub fn cancel_reservation(h: Head, slots: &[u32], tasks: &mut [u32]) -> Head
    requires { Shaped h slots.now tasks.old }
    ensures { Shows result slots.now tasks.new (plain_of h slots.now tasks.old ▷ with_reservation None ▷ wake_unfair) }
{
    let race = Change::WakeIfEnough(h.stock);
    change_owners(h.waiters, slots, tasks, h.tasks, race);
    let mut out = h;
    out.reservation = None;
    out
}

// The waiters of an unfair semaphore that can now go on are unblocked and woken: while a reservation stands only its task can, and
// one of a finished task must not keep the permits from the queue.
pub fn wake_unfair_waiters(h: Head, slots: &[u32], tasks: &mut [u32]) -> Head
    requires { Shaped h slots.now tasks.old }
    ensures { Shows result slots.now tasks.new (wake_unfair (plain_of h slots.now tasks.old)) }
{
    let Some(x) = h.reservation else {
        return cancel_reservation(h, slots, tasks);
    };
    let holder = words::request_at(slots, x);
    if words::finished(tasks, h.tasks, holder.task) {
        return cancel_reservation(h, slots, tasks);
    }
    wake_holder(holder, h.stock, tasks, h.tasks);
    h
}

// On an unfair semaphore, after permits are taken: whoever was woken and cannot go on any more is blocked again.
pub fn reblock_if_unfair(h: Head, slots: &[u32], tasks: &mut [u32], me: TaskId)
    requires { Shaped h slots.now tasks.old }
    ensures { Shows h slots.now tasks.new (reblock me (plain_of h slots.now tasks.old)) }
{
    if h.strictly_fair() {
        return;
    }
    let change = Change::Reblock {
        reserved: h.reservation.is_some(),
        stock: h.stock,
        me,
    };
    change_owners(h.waiters, slots, tasks, h.tasks, change);
}
