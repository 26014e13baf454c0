// The records of slots, tasks and grants in words that the caller lends: each is read whole, by value, and written whole.
#![tactic(auto)]

ghost use Rattle.std.specs.Prelude.{◌≡◌, [], ◌∷◌, ◌++◌, ◌*◌, ◌+◌, ◌≤◌, ◌<◌, length, get_or, set, None};
ghost use Rattle.std.proofs.Math.Seq.{paste};
ghost use Rattle.rules.specs.declared.Taker.TheVariants.{BySlot, ByTry};
ghost use Rattle.rules.specs.Sizes.{slot_count, max_tasks};
ghost use Rattle.rules.specs.Task.{is_finished};
ghost use Rattle.splitting.specs.Plain.{no_task, unblocked, wakened};
ghost use Rattle.splitting.specs.Who.{lowest_free};
ghost use Rattle.tables.specs.Table.{row};
ghost use Rattle.records.specs.View.{task_seen, seen, Stands, marking};
ghost use Rattle.words.specs.View.{state_of, state_word, kind_of, kind_word, mark_word, request_words, task_words, decoded, encoded, slots_of, altered, SlotsShow, tasks_of, TasksShow, grants_of, grant_words_in};

use records::{Marking, Request, Task};
use rules::{Ask, Priority, Slot, TaskState};

// A grant as it stands in its words (`grant_words_in`), so who took is a number: a slot below 256, or a try.
#[derive(Clone, Copy)]
pub struct GrantWords {
    pub taker: u32,
    pub count: u32,
    pub task: u32,
}

// ---- single words
// No `From`: the numbers are these words' own, and any past the last stands for the last.
fn state_of(w: u32) -> TaskState
    ensures { result ≡ state_of w }
{
    match w {
        0 => TaskState::Runnable,
        1 => TaskState::Blocked,
        2 => TaskState::Sleeping,
        _ => TaskState::Finished,
    }
}

fn kind_of(w: u32) -> Priority
    ensures { result ≡ kind_of w }
{
    match w {
        0 => Priority::Back,
        1 => Priority::Bypassable,
        _ => Priority::Front,
    }
}

// ---- a request in ten words
fn request_of(w: [u32; 10]) -> Request
    ensures { result ≡ decoded w }
{
    Request {
        used: w[0] != 0,
        ask: Ask {
            asked: w[1],
            least: w[2],
            kind: kind_of(w[3]),
            reserving: w[4] != 0,
        },
        task: w[5],
        queued: w[6] != 0,
        holding: w[7] != 0,
        completed: w[8] != 0,
        polled: w[9] != 0,
    }
}

fn words_of(r: Request) -> [u32; 10]
    ensures { result ≡ encoded r }
{
    let ask = r.ask;
    [
        u32::from(r.used),
        ask.asked,
        ask.least,
        ask.kind as u32,
        u32::from(ask.reserving),
        r.task,
        u32::from(r.queued),
        u32::from(r.holding),
        u32::from(r.completed),
        u32::from(r.polled),
    ]
}

// The request in a slot; past the slots, and in a free one, none.
pub fn request_at(slots: &[u32], x: Slot) -> Request
    requires { length slots.now ≡ slot_count * request_words }
    ensures { Stands result (get_or (slots_of slots.now) x.0 None) }
{
    let i = x.0 as usize;
    if 32 <= i {
        return Request::none();
    }
    request_of(tables::row(slots, i)).used_or_none()
}

// The request of a slot is written; past the slots, nothing.
pub fn put_request(slots: &mut [u32], i: usize, r: Request)
    requires { length slots.old ≡ slot_count * request_words }
    ensures { SlotsShow slots.new slots.old (set (slots_of slots.old) i (seen r)) }
{
    if 32 <= i {
        return;
    }
    tables::store(slots, i, words_of(r));
}

// The marks of the request in a slot are changed; in a free one, and past the slots, nothing is.
pub fn mark(slots: &mut [u32], x: Slot, m: Marking)
    requires { length slots.old ≡ slot_count * request_words }
    ensures { SlotsShow slots.new slots.old (altered x (marking m) (slots_of slots.old)) }
{
    let i = x.0 as usize;
    if 32 <= i {
        return;
    }
    let r = request_of(tables::row(slots, i));
    put_request(slots, i, r.mark(m));
}

// The slot is free.
pub fn free(slots: &mut [u32], x: Slot)
    requires { length slots.old ≡ slot_count * request_words }
    ensures { SlotsShow slots.new slots.old (set (slots_of slots.old) x.0 None) }
{
    put_request(slots, x.0 as usize, Request::none());
}

// The lowest slot that is free; 32 where none is, as the rules' `lowest_free` counts.
pub fn lowest_free(slots: &[u32]) -> usize
    requires { length slots.now ≡ slot_count * request_words }
    ensures { result ≡ lowest_free (slots_of slots.now) }
{
    for i in 0..32 {
        if slots[i * 10] == 0 {
            return i;
        }
    }
    32
}

// ---- a task in two words
// The task of a number; past the last, Runnable and unwoken.
pub fn task_at(tasks: &[u32], count: u32, t: u32) -> Task
    requires { (count ≤ max_tasks) × (length tasks.now ≡ max_tasks * task_words) }
    ensures { task_seen result ≡ get_or (tasks_of count tasks.now) t no_task }
{
    let i = t as usize;
    if count <= t {
        return Task::none();
    }
    Task {
        state: state_of(tasks[2 * i]),
        woken: tasks[2 * i + 1] != 0,
    }
}

// The task's words are written; past the last, nothing.
pub fn put_task(tasks: &mut [u32], count: u32, t: u32, a: Task)
    requires { (count ≤ max_tasks) × (length tasks.old ≡ max_tasks * task_words) }
    ensures { TasksShow count tasks.new tasks.old (set (tasks_of count tasks.old) t (task_seen a)) }
{
    let i = t as usize;
    if count <= t {
        return;
    }
    let b = 2 * i;
    tasks[b] = a.state as u32;
    tasks[b + 1] = u32::from(a.woken);
}

// Whether the task of a number is finished.
pub fn finished(tasks: &[u32], count: u32, t: u32) -> bool
    requires { (count ≤ max_tasks) × (length tasks.now ≡ max_tasks * task_words) }
    ensures { result ≡ is_finished (get_or (tasks_of count tasks.now) t no_task).state }
{
    task_at(tasks, count, t).finished()
}

// The task is unblocked and woken.
pub fn rouse(tasks: &mut [u32], count: u32, t: u32)
    requires { (count ≤ max_tasks) × (length tasks.old ≡ max_tasks * task_words) }
    ensures { TasksShow count tasks.new tasks.old (set (tasks_of count tasks.old) t (wakened (unblocked (get_or (tasks_of count tasks.old) t no_task)))) }
{
    let a = task_at(tasks, count, t);
    put_task(tasks, count, t, a.unblock().wake());
}

// ---- a grant in three words
fn put_grant(grants: &mut [u32], n: usize, g: GrantWords)
    requires { (n < slot_count) × (length grants.old ≡ slot_count * 3) }
    ensures { grants.new ≡ set (set (set grants.old (3 * n) g.taker) (3 * n + 1) g.count) (3 * n + 2) g.task }
{
    let b = 3 * n;
    grants[b] = g.taker;
    grants[b + 1] = g.count;
    grants[b + 2] = g.task;
}

// One grant more, by the request in a slot.
pub fn push_grant(grants: &mut [u32], n: usize, x: Slot, count: u32, task: u32)
    requires { (n < slot_count) × (length grants.old ≡ slot_count * 3) }
    ensures { grants_of (n + 1) grants.new ≡ grants_of n grants.old ++ record { taker = BySlot x; count = count; task = record { 0 = task } } ∷ [] }
{
    let taker = x.0 as u32;
    put_grant(grants, n, GrantWords { taker, count, task });
}

// One grant alone, by a try.
pub fn grant_try(grants: &mut [u32], count: u32, task: u32)
    requires { length grants.old ≡ slot_count * 3 }
    ensures { grants_of 1 grants.new ≡ record { taker = ByTry; count = count; task = record { 0 = task } } ∷ [] }
{
    put_grant(
        grants,
        0,
        GrantWords {
            taker: 256,
            count,
            task,
        },
    );
}

// The grant numbered i.
pub fn grant_at(grants: &[u32], i: usize) -> GrantWords
    requires { (i < slot_count) × (length grants.now ≡ slot_count * 3) }
    ensures { result ≡ grant_words_in grants.now i }
{
    let b = 3 * i;
    GrantWords {
        taker: grants[b],
        count: grants[b + 1],
        task: grants[b + 2],
    }
}
