// The queue: joining it, leaving it, and the scan from its front, after the source's `BatchSemaphoreState`. The head goes by value, the
// words of slots, tasks and grants are lent.
#![tactic(auto)]

ghost use Rattle.std.specs.Prelude.{◌≡◌, false, cond, ◌&&◌, ◌||◌, [], ◌∷◌, ◌++◌, ◌*◌, ◌≤◌, ◌<◌, length, get_or, None};
ghost use Rattle.rules.specs.Sizes.{slot_count, max_tasks};
ghost use Rattle.rules.specs.State.{is_strict};
ghost use Rattle.rules.specs.Request.{is_front};
ghost use Rattle.rules.specs.Broken.{twice};
ghost use Rattle.rules.specs.Steps.{is_first};
ghost use Rattle.splitting.specs.Who.{queue_back, queue_front, leave as leave_of, grant_queued, scan, drop_queued};
ghost use Rattle.queue.specs.View.{waiters_of, Holds};
ghost use Rattle.records.specs.View.{request_of, Stands};
ghost use Rattle.words.specs.View.{request_words, task_words, slots_of, tasks_of};
ghost use Rattle.head.specs.View.{plain_of, Shaped, Shows, Grants};
ghost use Rattle.scanning.specs.View.{AnyTasks, StandsAt, verdict_as, front_as};

use head::{Granting, Head};
use queue::Waiters;
use records::{Marking, Request};
use rules::{Priority, Slot, Verdict};

// The request in a slot joins the queue, in front of it or at its back.
pub fn enqueue_waiter(h: Head, slots: &mut [u32], x: Slot, priority: Priority) -> Head
    requires { (length (waiters_of h.waiters) < slot_count) × (length slots.old ≡ slot_count * request_words) }
    ensures { AnyTasks (λ s. cond (is_front priority) (queue_front x s) (queue_back x s)) result slots.new h slots.old }
{
    words::mark(slots, x, Marking::Joins);
    let mut out = h;
    out.waiters = match priority {
        Priority::Front => h.waiters.push_front(x),
        Priority::Back | Priority::Bypassable => h.waiters.push_back(x),
    };
    out
}

// The request in a slot leaves the queue, if it is in it.
pub fn leave(h: Head, slots: &mut [u32], x: Slot) -> Head
    requires { (h.waiters.len ≤ slot_count) × (length slots.old ≡ slot_count * request_words) }
    ensures { AnyTasks (leave_of x) result slots.new h slots.old }
{
    words::mark(slots, x, Marking::Leaves);
    let mut out = h;
    out.waiters = h.waiters.remove(x);
    out
}

// The same where its place in the queue is known: the scan need not look for it.
fn leave_at(h: Head, slots: &mut [u32], x: Slot, i: usize) -> Head
    requires { (h.waiters.len ≤ slot_count) × (length slots.old ≡ slot_count * request_words) × StandsAt x i (waiters_of h.waiters) }
    ensures { AnyTasks (leave_of x) result slots.new h slots.old }
{
    words::mark(slots, x, Marking::Leaves);
    let mut out = h;
    out.waiters = h.waiters.remove_at(i);
    out
}

// What the scan does at a request.
fn judge(r: Request, stock: u32, tasks: &[u32], count: u32) -> Verdict
    requires { (count ≤ max_tasks) × (length tasks.now ≡ max_tasks * task_words) }
    ensures { result ≡ verdict_as (tasks_of count tasks.now) (request_of r) stock }
{
    if words::finished(tasks, count, r.task) {
        Verdict::Leaves
    } else if r.ask.asked <= stock {
        Verdict::Fits
    } else if r.ask.kind == Priority::Bypassable {
        Verdict::Passed
    } else {
        Verdict::Ends
    }
}

// The queued request, which fits, is granted: held, out of the queue, its task unblocked and woken.
fn grant(h: Head, slots: &mut [u32], tasks: &mut [u32], x: Slot, i: usize, r: Request) -> Head
    requires { (Shaped h slots.old tasks.old) × (Stands r (get_or (slots_of slots.old) x.0 None)) × (r.ask.asked ≤ h.stock) × StandsAt x i (waiters_of h.waiters) }
    ensures { Shows result slots.new tasks.new (grant_queued x (plain_of h slots.old tasks.old)) }
{
    words::mark(slots, x, Marking::IsGranted);
    words::rouse(tasks, h.tasks, r.task);
    let mut out = h;
    out.stock -= r.ask.asked;
    out.waiters = h.waiters.remove_at(i);
    out
}

// The scan: grants what fits, from the front of the queue to the first request that is too large and may not be passed. No `for`: the queue
// shrinks while it is walked.
pub fn unblock_waiters_from_front(
    h: Head,
    slots: &mut [u32],
    tasks: &mut [u32],
    grants: &mut [u32],
) -> Granting
    requires { (Shaped h slots.old tasks.old) × (length grants.old ≡ slot_count * 3) × (twice (waiters_of h.waiters) ≡ false) }
    ensures { Grants result slots.new tasks.new grants.new (scan (plain_of h slots.old tasks.old)) }
{
    let mut now = h;
    let mut count: usize = 0;
    let mut i: usize = 0;
    while i < now.queue_length() {
        let x = now.waiters.at(i);
        let r = words::request_at(slots, x);
        match judge(r, now.stock, tasks, now.tasks) {
            Verdict::Leaves => now = leave_at(now, slots, x, i),
            Verdict::Fits => {
                words::push_grant(grants, count, x, r.ask.asked, r.task);
                count += 1;
                now = grant(now, slots, tasks, x, i, r);
            }
            Verdict::Passed => i += 1,
            Verdict::Ends => break,
        }
    }
    Granting { head: now, count }
}

// Whether the slot stands first.
fn is_first(waiters: Waiters, x: Slot) -> bool
    ensures { result ≡ is_first x (waiters_of waiters) }
{
    waiters.front() == Some(x)
}

// Whether the front request is Bypassable.
fn front_is_bypassable(waiters: Waiters, slots: &[u32]) -> bool
    requires { length slots.now ≡ slot_count * request_words }
    ensures { result ≡ front_as (waiters_of waiters) (slots_of slots.now) }
{
    match waiters.front() {
        Some(x) => words::request_at(slots, x).ask.kind == Priority::Bypassable,
        None => false,
    }
}

// Whether a queue that one has left must be scanned: on a strictly fair semaphore, if that one was first or the front is Bypassable.
fn must_scan(h: Head, slots: &[u32], first: bool) -> bool
    requires { length slots.now ≡ slot_count * request_words }
    ensures { result ≡ (is_strict h.fairness && (first || front_as (waiters_of h.waiters) (slots_of slots.now))) }
{
    h.strictly_fair() && (first || front_is_bypassable(h.waiters, slots))
}

// A queued request goes, and those behind it may be granted.
pub fn remove_waiter(
    h: Head,
    slots: &mut [u32],
    tasks: &mut [u32],
    grants: &mut [u32],
    x: Slot,
) -> Granting
    requires { (Shaped h slots.old tasks.old) × (length grants.old ≡ slot_count * 3) × (twice (waiters_of h.waiters) ≡ false) }
    ensures { Grants result slots.new tasks.new grants.new (drop_queued x (plain_of h slots.old tasks.old)) }
{
    let first = is_first(h.waiters, x);
    let left = leave(h, slots, x);
    if must_scan(left, slots, first) {
        return unblock_waiters_from_front(left, slots, tasks, grants);
    }
    Granting {
        head: left,
        count: 0,
    }
}
