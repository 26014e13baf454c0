// What is decided of a step before anything is done, in one pass over the act: the first number of document 01's table that refuses it,
// how many permits it gives back, whether the actor would tick, and what it comes to. 14 comes before all of these; 9 and 11, which come
// last, belong to the clocks.
#![tactic(auto)]

ghost use Rattle.std.specs.Prelude.{◌≡◌, true, false, ◌&&◌, List, [], ◌∷◌, ℕ, ◌+◌, ◌*◌, ◌≤◌, leb, ltb, length, get_or, None};
ghost use Rattle.rules.specs.declared.Slot.{Slot as SlotRule};
ghost use Rattle.rules.specs.declared.Act.TheVariants.{AcquireReserving, Upgrade, Poll, Try, TryUpgrade, Release, Drop};
ghost use Rattle.rules.specs.Sizes.{largest, slot_count, max_tasks};
ghost use Rattle.rules.specs.Request.{plain_ask};
ghost use Rattle.rules.specs.State.{is_strict};
ghost use Rattle.rules.specs.Refusals.{Ground, ◌if◌, bad_reserving, bad_upgrade};
ghost use Rattle.splitting.specs.Plain.{Plain};
ghost use Rattle.splitting.specs.Who.{lowest_free, direct, gives_back, grounds};
ghost use Rattle.records.specs.View.{request_of, Stands};
ghost use Rattle.words.specs.View.{request_words, task_words, slots_of};
ghost use Rattle.head.specs.View.{plain_of};
ghost use Rattle.choosing.specs.declared.Choice.TheVariants.{Makes, Tries};
ghost use Rattle.planning.specs.Plans.{Says, actor_grounds, poll_asks_nothing, Plans, Planned};

use choosing::Choice;
use head::Head;
use records::Request;
use replies::Refusal;
use rules::{Act, Ask, Priority, Slot, TaskId};

// What was decided of a step.
#[derive(Clone, Copy)]
pub struct Plan {
    pub check: Result<(), Refusal>,
    pub back: u32,
    pub ticks: bool,
    pub choice: Choice,
}

// ---- grounds
// 5: a plain ask of 0, neither holding nor closed.
fn polls_nothing(r: Request, closed: bool) -> bool
    ensures { result ≡ poll_asks_nothing (request_of r) closed }
{
    !r.ask.reserving && r.ask.asked == 0 && !(r.holding || closed)
}

// 7, of an upgrade: held 0, or wanted not above held.
pub fn bad_upgrade(held: u32, wanted: u32) -> bool
    ensures { result ≡ bad_upgrade held wanted }
{
    held == 0 || wanted <= held
}

// 10: the stock would pass the largest count.
fn too_many(stock: u32, n: u32) -> bool
    ensures { result ≡ (ltb 0 n && ltb largest (stock + n)) }
{
    stock.checked_add(n).is_none()
}

// ---- checks
// 1 and 2: the actor is a task, and Runnable. They come before what is planned of the act.
pub fn check_actor(h: Head, tasks: &[u32], me: TaskId) -> Result<(), Refusal>
    requires { (h.tasks ≤ max_tasks) × (length tasks.now ≡ max_tasks * task_words) }
    ensures { (slots : List ℕ) → Says result (actor_grounds me (plain_of h slots tasks.now)) }
{
    if h.tasks <= me.0 as u32 {
        return Err(Refusal::NoSuchTask);
    }
    let task = words::task_at(tasks, h.tasks, me.0 as u32);
    if !task.runnable() {
        return Err(Refusal::NotRunnable);
    }
    Ok(())
}

// 8: all 32 slots in use, of the lowest that is free.
fn check_slot(slot: usize) -> Result<(), Refusal>
    ensures { Says result (8 if leb slot_count slot ∷ []) }
{
    if 32 <= slot {
        return Err(Refusal::NoFreeSlot);
    }
    Ok(())
}

fn check_reserving(h: Head, slot: usize, least: u32, asked: u32) -> Result<(), Refusal>
    ensures { Says result (6 if is_strict h.fairness ∷ 7 if bad_reserving least asked ∷ 8 if leb slot_count slot ∷ []) }
{
    if h.strictly_fair() {
        return Err(Refusal::StrictlyFair);
    }
    if records::bad_reserving(least, asked) {
        return Err(Refusal::BadCounts);
    }
    check_slot(slot)
}

fn check_upgrade(slot: usize, held: u32, wanted: u32) -> Result<(), Refusal>
    ensures { Says result (7 if bad_upgrade held wanted ∷ 8 if leb slot_count slot ∷ []) }
{
    if bad_upgrade(held, wanted) {
        return Err(Refusal::BadCounts);
    }
    check_slot(slot)
}

// A poll of the request that was read at the slot.
fn check_poll(h: Head, r: Request) -> Result<(), Refusal>
    ensures { (x : SlotRule) (slots tasks : List ℕ) → Stands r (get_or (slots_of slots) x.0 None) → Says result (grounds (Poll x) (plain_of h slots tasks)) }
{
    if !r.used {
        return Err(Refusal::NoSuchRequest);
    }
    if r.completed {
        return Err(Refusal::Completed);
    }
    if polls_nothing(r, h.closed) {
        return Err(Refusal::AsksNothing);
    }
    Ok(())
}

fn check_try(n: u32) -> Result<(), Refusal>
    ensures { (p : Plain) → Says result (grounds (Try n) p) }
{
    if n == 0 {
        return Err(Refusal::AsksNothing);
    }
    Ok(())
}

fn check_try_upgrade(held: u32, wanted: u32) -> Result<(), Refusal>
    ensures { (p : Plain) → Says result (grounds (TryUpgrade held wanted) p) }
{
    if bad_upgrade(held, wanted) {
        return Err(Refusal::BadCounts);
    }
    Ok(())
}

fn check_release(h: Head, n: u32) -> Result<(), Refusal>
    ensures { (slots tasks : List ℕ) → Says result (grounds (Release n) (plain_of h slots tasks)) }
{
    if too_many(h.stock, n) {
        return Err(Refusal::TooMany);
    }
    Ok(())
}

// A drop of the request that was read at the slot, by what it gives back.
fn check_drop(h: Head, r: Request, back: u32) -> Result<(), Refusal>
    ensures { (x : SlotRule) (slots tasks : List ℕ) → Stands r (get_or (slots_of slots) x.0 None) → back ≡ gives_back x (plain_of h slots tasks) → Says result (grounds (Drop x) (plain_of h slots tasks)) }
{
    if !r.used {
        return Err(Refusal::NoSuchRequest);
    }
    check_release(h, back)
}

// ---- plans
// A request is made: nothing comes back, and nobody ticks.
fn plan_make(check: Result<(), Refusal>, slot: usize, ask: Ask) -> Plan
    ensures { (gs : List Ground) → Says check gs → Plans result gs 0 false (Makes slot ask) }
{
    let choice = Choice::Makes { slot, ask };
    Plan {
        check,
        back: 0,
        ticks: false,
        choice,
    }
}

fn plan_plain(slots: &[u32], kind: Priority, n: u32) -> Plan
    requires { length slots.now ≡ slot_count * request_words }
    ensures { Plans result (8 if leb slot_count (lowest_free (slots_of slots.now)) ∷ []) 0 false (Makes (lowest_free (slots_of slots.now)) (plain_ask kind n)) }
{
    let slot = words::lowest_free(slots);
    let check = check_slot(slot);
    let ask = records::plain_ask(kind, n);
    plan_make(check, slot, ask)
}

fn plan_reserving(h: Head, slots: &[u32], least: u32, asked: u32) -> Plan
    requires { length slots.now ≡ slot_count * request_words }
    ensures { (tasks : List ℕ) → Planned result (AcquireReserving least asked) (plain_of h slots.now tasks) }
{
    let slot = words::lowest_free(slots);
    let check = check_reserving(h, slot, least, asked);
    let ask = records::reserving_ask(least, asked);
    plan_make(check, slot, ask)
}

fn plan_upgrade(h: Head, slots: &[u32], held: u32, wanted: u32) -> Plan
    requires { length slots.now ≡ slot_count * request_words }
    ensures { (tasks : List ℕ) → Planned result (Upgrade held wanted) (plain_of h slots.now tasks) }
{
    let slot = words::lowest_free(slots);
    let check = check_upgrade(slot, held, wanted);
    let n = choosing::difference(held, wanted);
    let ask = records::upgrade_ask(h.strictly_fair(), n);
    plan_make(check, slot, ask)
}

fn plan_poll(h: Head, slots: &[u32], x: Slot) -> Plan
    requires { (h.waiters.len ≤ slot_count) × (length slots.now ≡ slot_count * request_words) }
    ensures { (tasks : List ℕ) → Planned result (Poll x) (plain_of h slots.now tasks) }
{
    let r = words::request_at(slots, x);
    let polling = choosing::polling(h, slots, x, r);
    let check = check_poll(h, r);
    let ticks = choosing::takes_in(polling);
    let choice = Choice::Polls {
        slot: x,
        asked: r.ask.asked,
        polling,
    };
    Plan {
        check,
        back: 0,
        ticks,
        choice,
    }
}

// A try ticks in vain too.
fn plan_try(h: Head, slots: &[u32], check: Result<(), Refusal>, n: u32, kind: Priority) -> Plan
    requires { (h.waiters.len ≤ slot_count) × (length slots.now ≡ slot_count * request_words) }
    ensures { (gs : List Ground) (tasks : List ℕ) → Says check gs → Plans result gs 0 true (Tries n (direct kind n (plain_of h slots.now tasks))) }
{
    let direct = choosing::direct(h, slots, n, kind);
    let choice = Choice::Tries { count: n, direct };
    Plan {
        check,
        back: 0,
        ticks: true,
        choice,
    }
}

fn plan_release(h: Head, n: u32) -> Plan
    ensures { (slots tasks : List ℕ) → Planned result (Release n) (plain_of h slots tasks) }
{
    let check = check_release(h, n);
    let choice = Choice::Releases(n);
    Plan {
        check,
        back: n,
        ticks: 0 < n,
        choice,
    }
}

fn plan_drop(h: Head, slots: &[u32], x: Slot) -> Plan
    requires { length slots.now ≡ slot_count * request_words }
    ensures { (tasks : List ℕ) → Planned result (Drop x) (plain_of h slots.now tasks) }
{
    let r = words::request_at(slots, x);
    let dropping = choosing::dropping(h, x, r);
    let back = choosing::returned(dropping, r.ask.asked);
    let check = check_drop(h, r, back);
    let choice = Choice::Drops {
        slot: x,
        back,
        dropping,
    };
    Plan {
        check,
        back,
        ticks: 0 < back,
        choice,
    }
}

// What meets no ground of its own: a close, a sleep, a finish.
fn still(choice: Choice) -> Plan
    ensures { Plans result [] 0 false choice }
{
    Plan {
        check: Ok(()),
        back: 0,
        ticks: false,
        choice,
    }
}

// What is decided of the act.
pub fn plan_act(h: Head, slots: &[u32], act: Act) -> Plan
    requires { (h.waiters.len ≤ slot_count) × (length slots.now ≡ slot_count * request_words) }
    ensures { (tasks : List ℕ) → Planned result act (plain_of h slots.now tasks) }
{
    match act {
        Act::Acquire(n) => plan_plain(slots, Priority::Back, n),
        Act::AcquireBypassable(n) => plan_plain(slots, Priority::Bypassable, n),
        Act::AcquireReserving { least, asked } => plan_reserving(h, slots, least, asked),
        Act::Upgrade { held, wanted } => plan_upgrade(h, slots, held, wanted),
        Act::Poll(x) => plan_poll(h, slots, x),
        Act::Try(n) => plan_try(h, slots, check_try(n), n, Priority::Back),
        Act::TryUpgrade { held, wanted } => plan_try(
            h,
            slots,
            check_try_upgrade(held, wanted),
            choosing::difference(held, wanted),
            Priority::Front,
        ),
        Act::Release(n) => plan_release(h, n),
        Act::Drop(x) => plan_drop(h, slots, x),
        Act::Close => still(Choice::Closes),
        Act::Sleep => still(Choice::Sleeps),
        Act::Finish => still(Choice::Finishes),
    }
}
