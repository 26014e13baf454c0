// What a step comes to, decided before anything is done: after the source's `acquire_permits`, `poll`, `poll_reserving` and `Drop` of
// `Acquire`. Slots are only read, and tasks are not looked at.
#![tactic(auto)]

ghost use Rattle.std.specs.Prelude.{◌≡◌, false, ◌&&◌, List, ℕ, ◌*◌, ◌-◌, ◌≤◌, length, get_or, None};
ghost use Rattle.rules.specs.Sizes.{slot_count};
ghost use Rattle.rules.specs.State.{is_strict};
ghost use Rattle.rules.specs.Polling.{queues as queues_by, takes_in, polled as polled_of};
ghost use Rattle.rules.specs.Refusals.{returned as returned_of};
ghost use Rattle.splitting.specs.Who.{direct as direct_of, poll_reserving, by_direct, poll_plain, polling as polling_of, dropping as dropping_of};
ghost use Rattle.queue.specs.View.{waiters_of};
ghost use Rattle.records.specs.View.{request_of, Stands};
ghost use Rattle.words.specs.View.{request_words, slots_of};
ghost use Rattle.head.specs.View.{plain_of};
ghost use Rattle.choosing.specs.Choice.{every_bypassable, passes};

use head::Head;
use queue::Waiters;
use records::Request;
use rules::{Ask, Direct, Dropping, Polled, Polling, Priority, Slot};

// What a step comes to. A made request's `slot` is the lowest free one; `asked` is what the polled request asks for, `back` what the drop
// gives back.
#[derive(Clone, Copy)]
pub enum Choice {
    Makes {
        slot: usize,
        ask: Ask,
    },
    Polls {
        slot: Slot,
        asked: u32,
        polling: Polling,
    },
    Tries {
        count: u32,
        direct: Direct,
    },
    Releases(u32),
    Drops {
        slot: Slot,
        back: u32,
        dropping: Dropping,
    },
    Closes,
    Sleeps,
    Finishes,
}

// ---- by cases
// Whether a poll takes permits.
pub fn takes_in(p: Polling) -> bool
    ensures { result ≡ takes_in p }
{
    matches!(p, Polling::TakesReserved | Polling::Takes)
}

// The answer of a poll.
pub fn polled(p: Polling) -> Polled
    ensures { result ≡ polled_of p }
{
    match p {
        Polling::Holds | Polling::TakesReserved | Polling::Takes => Polled::Granted,
        Polling::IsClosed => Polled::Closed,
        Polling::Stays | Polling::QueuesBack | Polling::QueuesFront | Polling::Reserves => {
            Polled::Pending
        }
    }
}

// How many permits a drop gives back of those asked.
pub fn returned(d: Dropping, n: u32) -> u32
    ensures { result ≡ returned_of d n }
{
    match d {
        Dropping::Returning => n,
        Dropping::Leaving | Dropping::Unreserving | Dropping::Nothing => 0,
    }
}

// ---- the direct rule
// Whether every queued request is Bypassable.
fn all_bypassable(waiters: Waiters, slots: &[u32]) -> bool
    requires { (waiters.len ≤ slot_count) × (length slots.now ≡ slot_count * request_words) }
    ensures { result ≡ every_bypassable (waiters_of waiters) (slots_of slots.now) }
{
    waiters.in_use().iter().all(|&x| words::request_at(slots, x).ask.kind == Priority::Bypassable)
}

// Whether a request of the kind may pass those queued: the semaphore is unfair, or the kind is Front, or all are Bypassable. The queue
// is walked last.
fn may_pass(h: Head, slots: &[u32], kind: Priority) -> bool
    requires { (h.waiters.len ≤ slot_count) × (length slots.now ≡ slot_count * request_words) }
    ensures { result ≡ passes (is_strict h.fairness) kind (waiters_of h.waiters) (slots_of slots.now) }
{
    !h.strictly_fair() || kind == Priority::Front || all_bypassable(h.waiters, slots)
}

// The direct rule.
pub fn direct(h: Head, slots: &[u32], num_permits: u32, kind: Priority) -> Direct
    requires { (h.waiters.len ≤ slot_count) × (length slots.now ≡ slot_count * request_words) }
    ensures { (tasks : List ℕ) → result ≡ direct_of kind num_permits (plain_of h slots.now tasks) }
{
    if h.closed {
        return Direct::Shut;
    }
    if h.reservation.is_none() && num_permits <= h.stock && may_pass(h, slots, kind) {
        return Direct::Take;
    }
    Direct::NoPermits
}

// ---- a poll
// Where a request that is not queued joins the queue.
fn joins(kind: Priority) -> Polling
    ensures { result ≡ queues_by kind false }
{
    match kind {
        Priority::Back | Priority::Bypassable => Polling::QueuesBack,
        Priority::Front => Polling::QueuesFront,
    }
}

// A request that cannot go on queues, unless it is queued.
fn queues(kind: Priority, queued: bool) -> Polling
    ensures { result ≡ queues_by kind queued }
{
    if queued {
        return Polling::Stays;
    }
    joins(kind)
}

// A reserving request: the one that has the reservation waits for its whole ask; another may reserve once its least is there.
#[tactic(auto, unfolding(splitting::specs::Who::poll_reserving))]
fn poll_reserving(h: Head, x: Slot, r: Request) -> Polling
    ensures { (slots tasks : List ℕ) → result ≡ poll_reserving x (request_of r) (plain_of h slots tasks) }
{
    if h.has_reservation(x) {
        if h.stock < r.ask.asked {
            return Polling::Stays;
        }
        return Polling::TakesReserved;
    }
    if h.reservation.is_some() || h.stock < r.ask.least {
        return queues(Priority::Back, r.queued);
    }
    if h.stock < r.ask.asked {
        return Polling::Reserves;
    }
    Polling::Takes
}

// A plain request, as the direct rule says.
fn by_direct(d: Direct, r: Request) -> Polling
    ensures { result ≡ by_direct d (request_of r) }
{
    match d {
        Direct::Shut => Polling::IsClosed,
        Direct::NoPermits => queues(r.ask.kind, r.queued),
        Direct::Take => Polling::Takes,
    }
}

// A plain request: one that is queued on a strictly fair semaphore waits for a scan.
#[tactic(auto, unfolding(splitting::specs::Who::poll_plain))]
fn poll_plain(h: Head, slots: &[u32], r: Request) -> Polling
    requires { (h.waiters.len ≤ slot_count) × (length slots.now ≡ slot_count * request_words) }
    ensures { (tasks : List ℕ) → result ≡ poll_plain (request_of r) (plain_of h slots.now tasks) }
{
    if r.queued && h.strictly_fair() {
        return Polling::Stays;
    }
    by_direct(direct(h, slots, r.ask.asked, r.ask.kind), r)
}

// What a poll does, of the request that was read at the slot.
#[tactic(auto, unfolding(splitting::specs::Who::polling))]
pub fn polling(h: Head, slots: &[u32], x: Slot, r: Request) -> Polling
    requires { (h.waiters.len ≤ slot_count) × (length slots.now ≡ slot_count * request_words) × (Stands r (get_or (slots_of slots.now) x.0 None)) }
    ensures { (tasks : List ℕ) → result ≡ polling_of x (plain_of h slots.now tasks) }
{
    if r.holding {
        return Polling::Holds;
    }
    if h.closed {
        return Polling::IsClosed;
    }
    if r.ask.reserving {
        return poll_reserving(h, x, r);
    }
    poll_plain(h, slots, r)
}

// ---- a drop
// What a drop does before the slot is free: the request that was read there is queued, has the reservation, or holds permits that nobody
// was told of.
#[tactic(auto, unfolding(splitting::specs::Who::dropping))]
pub fn dropping(h: Head, x: Slot, r: Request) -> Dropping
    ensures { (slots tasks : List ℕ) → Stands r (get_or (slots_of slots) x.0 None) → result ≡ dropping_of x (plain_of h slots tasks) }
{
    if r.queued {
        return Dropping::Leaving;
    }
    if h.has_reservation(x) {
        return Dropping::Unreserving;
    }
    if r.holding && !r.completed {
        return Dropping::Returning;
    }
    Dropping::Nothing
}

// ---- an upgrade
// The difference that an upgrade asks for; none where wanted is not above held, which is refused.
pub fn difference(held: u32, wanted: u32) -> u32
    ensures { result ≡ wanted - held }
{
    wanted.saturating_sub(held)
}
