// What a step does that moves permits, the queue or the reservation, once it is decided what it comes to: the effect of each decision, on
// a head by value and lent words. The steps that leave the head as it is are resting's.
#![tactic(auto)]

ghost use Rattle.std.specs.Prelude.{◌≡◌, true, false, cond, ◌*◌, ◌≤◌, ◌<◌, length, None, Some};
ghost use Rattle.rules.specs.declared.Direct.TheVariants.{Take};
ghost use Rattle.rules.specs.Sizes.{slot_count};
ghost use Rattle.rules.specs.Request.{is_front};
ghost use Rattle.rules.specs.Broken.{twice};
ghost use Rattle.rules.specs.Steps.Answer.{done, pending};
ghost use Rattle.splitting.specs.Plain.{with_reservation, alter_request, polled_pending, ◌▷◌};
ghost use Rattle.splitting.specs.Who.{taking, queue_back, queue_front, leave, wake_unfair, reblock, quiet as quiet_of, try_by, scan_or_wake, release as release_of, drop_work, closing};
ghost use Rattle.replies.specs.declared.Reply.TheVariants.{Done};
ghost use Rattle.replies.specs.Answers.{answer_of};
ghost use Rattle.queue.specs.View.{waiters_of};
ghost use Rattle.records.specs.View.{marking};
ghost use Rattle.words.specs.View.{request_words};
ghost use Rattle.head.specs.View.{plain_of, Shaped, Grants, Answers};
ghost use Rattle.doing.specs.Effects.{SlotsAnswer, AnyGrants, poll_takes, GrantsPoll, Ungranted, MayRelease, MayPoll, MayDrop, Able};
ghost use Rattle.choosing.specs.Choice.{poll_by, drop_by, effect_by, poll_moves, moves_in};

use choosing::Choice;
use head::{Answered, Granting, Head};
use records::Marking;
use replies::Reply;
use rules::{Dropping, Polling, Priority, Slot, TaskId};

// ---- polls

// What a poll ends with that takes nothing: its request's marks, and its reply.
fn polled(h: Head, slots: &mut [u32], x: Slot, m: Marking, reply: Reply) -> Answered
    requires { length slots.old ≡ slot_count * request_words }
    ensures { SlotsAnswer (λ s. quiet_of (answer_of reply) (alter_request x (marking m) s)) result slots.new h slots.old }
{
    words::mark(slots, x, m);
    Answered {
        reply,
        count: 0,
        head: h,
    }
}

// The request joins the queue, in front of it or at its back, and its task waits.
fn wait_in_queue(h: Head, slots: &mut [u32], me: TaskId, x: Slot, priority: Priority) -> Answered
    requires { (length slots.old ≡ slot_count * request_words) × (length (waiters_of h.waiters) < slot_count) }
    ensures { SlotsAnswer (λ s. quiet_of pending (alter_request x (polled_pending me) (cond (is_front priority) (queue_front x s) (queue_back x s)))) result slots.new h slots.old }
{
    let joined = scanning::enqueue_waiter(h, slots, x, priority);
    polled(joined, slots, x, Marking::PollsPending(me), Reply::Pending)
}

// The request holds what it asked for: the one grant of its poll.
fn poll_granted(
    h: Head,
    slots: &mut [u32],
    grants: &mut [u32],
    me: TaskId,
    x: Slot,
    asked: u32,
) -> Answered
    requires { (length slots.old ≡ slot_count * request_words) × (length grants.old ≡ slot_count * 3) }
    ensures { GrantsPoll result slots.new grants.new me x asked h slots.old }
{
    words::mark(slots, x, Marking::PollsGranted);
    words::push_grant(grants, 0, x, asked, me.0 as u32);
    Answered {
        reply: Reply::Granted,
        count: 1,
        head: h,
    }
}

// The holder of the reservation takes its permits, and lets the others race for the rest.
fn take_reserved(
    h: Head,
    slots: &mut [u32],
    tasks: &mut [u32],
    grants: &mut [u32],
    me: TaskId,
    x: Slot,
    asked: u32,
) -> Answered
    requires { (Shaped h slots.old tasks.old) × (length grants.old ≡ slot_count * 3) × (asked ≤ h.stock) }
    ensures { Answers result slots.new tasks.new grants.new (poll_takes me x asked (plain_of h slots.old tasks.old ▷ with_reservation None ▷ taking asked ▷ wake_unfair)) }
{
    let mut taken = h;
    taken.stock -= asked;
    taken.reservation = None;
    let woken = rousing::wake_unfair_waiters(taken, slots, tasks);
    poll_granted(woken, slots, grants, me, x, asked)
}

// A request takes its permits, and leaves the queue if it is in it.
fn take_and_leave(
    h: Head,
    slots: &mut [u32],
    tasks: &mut [u32],
    grants: &mut [u32],
    me: TaskId,
    x: Slot,
    asked: u32,
) -> Answered
    requires { (Shaped h slots.old tasks.old) × (length grants.old ≡ slot_count * 3) × (asked ≤ h.stock) }
    ensures { Answers result slots.new tasks.new grants.new (poll_takes me x asked (plain_of h slots.old tasks.old ▷ taking asked ▷ leave x ▷ reblock me)) }
{
    let mut taken = h;
    taken.stock -= asked;
    let left = scanning::leave(taken, slots, x);
    rousing::reblock_if_unfair(left, slots, tasks, me);
    poll_granted(left, slots, grants, me, x, asked)
}

// A request takes the reservation, and its task waits.
fn reserve(h: Head, slots: &mut [u32], tasks: &mut [u32], me: TaskId, x: Slot) -> Answered
    requires { Shaped h slots.old tasks.old }
    ensures { AnyGrants result slots.new tasks.new (quiet_of pending (alter_request x (polled_pending me) (plain_of h slots.old tasks.old ▷ leave x ▷ with_reservation (Some x) ▷ reblock me))) }
{
    let mut mine = scanning::leave(h, slots, x);
    mine.reservation = Some(x);
    rousing::reblock_if_unfair(mine, slots, tasks, me);
    polled(mine, slots, x, Marking::PollsPending(me), Reply::Pending)
}

// A poll that moves something, as it was decided.
fn poll_by(
    h: Head,
    slots: &mut [u32],
    tasks: &mut [u32],
    grants: &mut [u32],
    me: TaskId,
    x: Slot,
    asked: u32,
    p: Polling,
) -> Answered
    requires { (Shaped h slots.old tasks.old) × (length grants.old ≡ slot_count * 3) × (poll_moves p ≡ true) × MayPoll p asked x (plain_of h slots.old tasks.old) }
    ensures { Answers result slots.new tasks.new grants.new (poll_by p me x (plain_of h slots.old tasks.old)) }
{
    match p {
        Polling::Holds | Polling::IsClosed | Polling::Stays => unreachable!(),
        Polling::QueuesBack => wait_in_queue(h, slots, me, x, Priority::Back),
        Polling::QueuesFront => wait_in_queue(h, slots, me, x, Priority::Front),
        Polling::TakesReserved => take_reserved(h, slots, tasks, grants, me, x, asked),
        Polling::Takes => take_and_leave(h, slots, tasks, grants, me, x, asked),
        Polling::Reserves => reserve(h, slots, tasks, me, x),
    }
}

// ---- tries

// A try takes its permits: its one grant.
fn take_by_try(
    h: Head,
    slots: &[u32],
    tasks: &mut [u32],
    grants: &mut [u32],
    me: TaskId,
    num_permits: u32,
) -> Answered
    requires { (Shaped h slots.now tasks.old) × (length grants.old ≡ slot_count * 3) × (num_permits ≤ h.stock) }
    ensures { Answers result slots.now tasks.new grants.new (try_by Take me num_permits (plain_of h slots.now tasks.old)) }
{
    let mut taken = h;
    taken.stock -= num_permits;
    rousing::reblock_if_unfair(taken, slots, tasks, me);
    words::grant_try(grants, num_permits, me.0 as u32);
    Answered {
        reply: Reply::Granted,
        count: 1,
        head: taken,
    }
}

// ---- giving back

// Strictly fair, those at the front of the queue are granted what fits; unfair, those who could go on are woken, and race.
fn scan_or_wake(h: Head, slots: &mut [u32], tasks: &mut [u32], grants: &mut [u32]) -> Granting
    requires { (Shaped h slots.old tasks.old) × (length grants.old ≡ slot_count * 3) × (twice (waiters_of h.waiters) ≡ false) }
    ensures { Grants result slots.new tasks.new grants.new (scan_or_wake (plain_of h slots.old tasks.old)) }
{
    if h.strictly_fair() {
        return scanning::unblock_waiters_from_front(h, slots, tasks, grants);
    }
    let woken = rousing::wake_unfair_waiters(h, slots, tasks);
    Granting {
        head: woken,
        count: 0,
    }
}

// Permits are given back; none is nothing.
fn release(
    h: Head,
    slots: &mut [u32],
    tasks: &mut [u32],
    grants: &mut [u32],
    num_permits: u32,
) -> Granting
    requires { (Shaped h slots.old tasks.old) × (length grants.old ≡ slot_count * 3) × (twice (waiters_of h.waiters) ≡ false) × MayRelease num_permits (plain_of h slots.old tasks.old) }
    ensures { Grants result slots.new tasks.new grants.new (release_of num_permits (plain_of h slots.old tasks.old)) }
{
    if num_permits == 0 {
        return Granting { head: h, count: 0 };
    }
    let mut more = h;
    more.stock += num_permits;
    scan_or_wake(more, slots, tasks, grants)
}

// The reservation ends, and the others race.
fn unreserve(h: Head, slots: &[u32], tasks: &mut [u32]) -> Granting
    requires { Shaped h slots.now tasks.old }
    ensures { Ungranted result slots.now tasks.new (plain_of h slots.now tasks.old ▷ with_reservation None ▷ wake_unfair) }
{
    let woken = rousing::cancel_reservation(h, slots, tasks);
    Granting {
        head: woken,
        count: 0,
    }
}

// What a drop does before the slot is free.
fn drop_work(
    h: Head,
    slots: &mut [u32],
    tasks: &mut [u32],
    grants: &mut [u32],
    x: Slot,
    back: u32,
    d: Dropping,
) -> Granting
    requires { (Shaped h slots.old tasks.old) × (length grants.old ≡ slot_count * 3) × (twice (waiters_of h.waiters) ≡ false) × MayDrop d back x (plain_of h slots.old tasks.old) }
    ensures { Grants result slots.new tasks.new grants.new (drop_work d x (plain_of h slots.old tasks.old)) }
{
    match d {
        Dropping::Leaving => scanning::remove_waiter(h, slots, tasks, grants, x),
        Dropping::Unreserving => unreserve(h, slots, tasks),
        Dropping::Returning => release(h, slots, tasks, grants, back),
        Dropping::Nothing => Granting { head: h, count: 0 },
    }
}

// The request goes, as was decided: it leaves the queue, ends its reservation or gives back what it holds; and its slot is free.
fn drop_request(
    h: Head,
    slots: &mut [u32],
    tasks: &mut [u32],
    grants: &mut [u32],
    x: Slot,
    back: u32,
    d: Dropping,
) -> Granting
    requires { (Shaped h slots.old tasks.old) × (length grants.old ≡ slot_count * 3) × (twice (waiters_of h.waiters) ≡ false) × MayDrop d back x (plain_of h slots.old tasks.old) }
    ensures { Grants result slots.new tasks.new grants.new (drop_by d x (plain_of h slots.old tasks.old)) }
{
    let worked = drop_work(h, slots, tasks, grants, x, back, d);
    words::free(slots, x);
    worked
}

// ---- what is answered where nothing is decided

// Done, with what was granted on the way.
fn done_with(g: Granting) -> Answered
    ensures { result ≡ record { reply = Done; count = g.count; head = g.head } }
{
    Answered {
        reply: Reply::Done,
        count: g.count,
        head: g.head,
    }
}

// The semaphore is closed.
fn close(h: Head, slots: &mut [u32], tasks: &mut [u32]) -> Answered
    requires { Shaped h slots.old tasks.old }
    ensures { AnyGrants result slots.new tasks.new (quiet_of done (closing (plain_of h slots.old tasks.old))) }
{
    Answered {
        reply: Reply::Done,
        count: 0,
        head: closing::close(h, slots, tasks),
    }
}

// ---- every step

// The effect of what a step comes to, where that moves permits, the queue or the reservation.
pub fn effect(
    h: Head,
    slots: &mut [u32],
    tasks: &mut [u32],
    grants: &mut [u32],
    me: TaskId,
    c: Choice,
) -> Answered
    requires { (Shaped h slots.old tasks.old) × (length grants.old ≡ slot_count * 3) × (moves_in c ≡ true) × Able c (plain_of h slots.old tasks.old) }
    ensures { Answers result slots.new tasks.new grants.new (effect_by me c (plain_of h slots.old tasks.old)) }
{
    match c {
        Choice::Makes { .. } | Choice::Sleeps | Choice::Finishes => unreachable!(),
        Choice::Polls {
            slot,
            asked,
            polling,
        } => poll_by(h, slots, tasks, grants, me, slot, asked, polling),
        Choice::Tries { count, .. } => take_by_try(h, slots, tasks, grants, me, count),
        Choice::Releases(num_permits) => {
            done_with(release(h, slots, tasks, grants, num_permits))
        }
        Choice::Drops {
            slot,
            back,
            dropping,
        } => done_with(drop_request(h, slots, tasks, grants, slot, back, dropping)),
        Choice::Closes => close(h, slots, tasks),
    }
}
