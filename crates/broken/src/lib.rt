// Refusal 14: whether what is handed in is broken, for any value of every field and any lent words.
#![tactic(auto)]

ghost use Rattle.std.specs.Prelude.{◌≡◌, Bool, false, not, ◌&&◌, ◌||◌, List, ℕ, ◌+◌, ◌*◌, ◌≤◌, ◌<◌, ltb, length, get_or};
ghost use Rattle.rules.specs.Sizes.{slot_count, max_tasks};
ghost use Rattle.rules.specs.Broken.{any_of, reserved_slots};
ghost use Rattle.splitting.specs.Broken.{cannot_wait};
ghost use Rattle.queue.specs.View.{waiters_of};
ghost use Rattle.records.specs.View.{request_of};
ghost use Rattle.words.specs.View.{request_words, task_words, slots_of};
ghost use Rattle.broken.specs.Weights.{words_at, ask_wrong, named_wrong, other_wrong, request_wrong, weights, weight_of, sum_from, Marks, Weighs, heaviest, broken_slots};
ghost use Rattle.state.specs.View.{words_read};
ghost use Rattle.broken.specs.Broken.{other_lengths, stray_tasks, misreserved, broken_who, Judged};

use head::Head;
use queue::Waiters;
use records::Request;
use rules::Slot;
use state::{BatchSemaphore, ReadWords};

// ---- a slot's words, from b on: used, asked, least, kind, reserving, task, queued, holding, completed, polled
// A kind or a mark that stands for nothing, or an ask that 6 or 7 would have refused.
fn ask_is_wrong(slots: &[u32], b: usize, fair: bool) -> bool
    requires { b + request_words ≤ length slots.now }
    ensures { result ≡ ask_wrong fair (words_at slots.now b) }
{
    2 < slots[b + 3]
        || match slots[b + 4] {
            0 => false,
            1 => fair || records::bad_reserving(slots[b + 2], slots[b + 1]),
            _ => true,
        }
}

// Named by the queue, and asking for nothing, not marked so, holding, completed, or of none of the tasks.
fn named_is_wrong(slots: &[u32], b: usize, tasks: u32) -> bool
    requires { b + request_words ≤ length slots.now }
    ensures { result ≡ named_wrong tasks (words_at slots.now b) }
{
    slots[b + 1] == 0
        || slots[b + 6] != 1
        || slots[b + 7] | slots[b + 8] != 0
        || tasks <= slots[b + 5]
}

// Not named by the queue, and marked so; or a mark that stands for nothing.
fn other_is_wrong(slots: &[u32], b: usize) -> bool
    requires { b + request_words ≤ length slots.now }
    ensures { result ≡ other_wrong (words_at slots.now b) }
{
    slots[b + 6] != 0 || 1 < slots[b + 7] || 1 < slots[b + 8]
}

// A request in use that is so, by whether the queue names it.
fn request_is_wrong(slots: &[u32], b: usize, named: bool, tasks: u32, fair: bool) -> bool
    requires { b + request_words ≤ length slots.now }
    ensures { result ≡ request_wrong tasks fair named (words_at slots.now b) }
{
    ask_is_wrong(slots, b, fair)
        || 1 < slots[b + 9]
        || if named {
            named_is_wrong(slots, b, tasks)
        } else {
            other_is_wrong(slots, b)
        }
}

// ---- what the slots weigh: together as much as the queue is long, exactly where nothing is wrong
// Free, nothing; a request, one where the queue names it, and else nothing; a wrong one, and a word of use that is no mark, more than a queue
// can be long.
fn slot_weight(slots: &[u32], k: usize, named: bool, tasks: u32, fair: bool) -> usize
    requires { (k < slot_count) × (length slots.now ≡ slot_count * request_words) }
    ensures { Weighs result (weight_of tasks fair named (words_at slots.now (k * request_words))) heaviest }
{
    let b = k * 10;
    match slots[b] {
        1 if request_is_wrong(slots, b, named, tasks, fair) => 33,
        1 => named as usize,
        used => 33 * used as usize,
    }
}

// Whether one of four slots is in use: most are free, and four free ones weigh nothing.
fn any_used(slots: &[u32], k: usize) -> bool
    requires { (k + 4 ≤ slot_count) × (length slots.now ≡ slot_count * request_words) }
    ensures { result ≡ false → (n : ℕ) (fair : Bool) (seen : List Bool) → sum_from (weights n fair seen slots.now) 4 k ≡ 0 }
{
    let b = k * 10;
    slots[b] != 0 || slots[b + 10] != 0 || slots[b + 20] != 0 || slots[b + 30] != 0
}

fn four_weight(slots: &[u32], seen: &[bool; 256], k: usize, tasks: u32, fair: bool) -> usize
    requires { (k + 4 ≤ slot_count) × (length slots.now ≡ slot_count * request_words) }
    ensures { Weighs result (sum_from (weights tasks fair seen.now slots.now) 4 k) (4 * heaviest) }
{
    let mut sum = 0;
    for j in 0..4 {
        sum += slot_weight(slots, k + j, seen[k + j], tasks, fair);
    }
    sum
}

// The weight so far, and that of four slots more.
fn more_weight(
    sum: usize,
    slots: &[u32],
    seen: &[bool; 256],
    k: usize,
    tasks: u32,
    fair: bool,
) -> usize
    requires { (sum ≤ k * heaviest) × (k + 4 ≤ slot_count) × (length slots.now ≡ slot_count * request_words) }
    ensures { Weighs result (sum + sum_from (weights tasks fair seen.now slots.now) 4 k) ((k + 4) * heaviest) }
{
    if any_used(slots, k) {
        return sum + four_weight(slots, seen, k, tasks, fair);
    }
    sum
}

fn slots_weight(slots: &[u32], seen: &[bool; 256], tasks: u32, fair: bool) -> usize
    requires { length slots.now ≡ slot_count * request_words }
    ensures { result ≡ sum_from (weights tasks fair seen.now slots.now) slot_count 0 }
{
    let mut sum = 0;
    for i in 0..8 {
        sum = more_weight(sum, slots, seen, 4 * i, tasks, fair);
    }
    sum
}

// Each slot that the queue names is marked. Its number is a byte, so there is a mark for every number: one that names no slot is missing in the
// weight.
fn mark_named(seen: &mut [bool; 256], waiters: Waiters)
    requires { (waiters.len ≤ slot_count) × ((k : ℕ) → get_or seen.old k false ≡ false) }
    ensures { Marks seen.new (waiters_of waiters) }
{
    for x in &waiters.slots[..waiters.len as usize] {
        seen[x.0 as usize] = true;
    }
}

// ---- the parts of row 14
// What stands in the slots, against the queue, and the queue itself.
fn slots_are_broken(waiters: Waiters, slots: &[u32], tasks: u32, fair: bool) -> bool
    requires { (waiters.len ≤ slot_count) × (length slots.now ≡ slot_count * request_words) }
    ensures { result ≡ broken_slots tasks fair (waiters_of waiters) slots.now }
{
    let mut seen = [false; 256];
    mark_named(&mut seen, waiters);
    slots_weight(slots, &seen, tasks, fair) != waiters.len as usize
}

// A task's state or mark that stands for nothing: the words of all tasks together show it, since the largest that stand are 3 and 1.
fn tasks_are_broken(tasks: &[u32], count: u32) -> bool
    requires { (count ≤ max_tasks) × (length tasks.now ≡ max_tasks * task_words) }
    ensures { result ≡ stray_tasks count tasks.now }
{
    let mut states = 0;
    let mut marks = 0;
    for t in 0..count as usize {
        states |= tasks[2 * t];
        marks |= tasks[2 * t + 1];
    }
    3 < states || 1 < marks
}

// A request that is free, queued, not reserving, or cannot wait: that holds, has completed, or names none of the tasks.
fn cannot_reserve(r: Request, tasks: u32) -> bool
    ensures { result ≡ (not r.used || r.queued || not r.ask.reserving || cannot_wait tasks (request_of r)) }
{
    !r.used || r.queued || !r.ask.reserving || r.holding || r.completed || tasks <= r.task
}

fn reservation_is_broken(reservation: Option<Slot>, slots: &[u32], tasks: u32) -> bool
    requires { length slots.now ≡ slot_count * request_words }
    ensures { result ≡ any_of (misreserved tasks (slots_of slots.now)) (reserved_slots reservation) }
{
    match reservation {
        None => false,
        Some(x) => 32 <= x.0 || cannot_reserve(words::request_at(slots, x), tasks),
    }
}

// Closed with a queue or a reservation.
fn closed_is_broken(closed: bool, waiting: u32, reserved: bool) -> bool
    ensures { result ≡ (closed && (ltb 0 waiting || reserved)) }
{
    closed && (0 < waiting || reserved)
}

// All but the lengths and the batches.
fn who_is_broken(h: Head, slots: &[u32], tasks: &[u32]) -> bool
    requires { (length slots.now ≡ slot_count * request_words) × (length tasks.now ≡ max_tasks * task_words) }
    ensures { result ≡ broken_who h slots.now tasks.now }
{
    16 < h.tasks
        || 32 < h.waiters.len
        || tasks_are_broken(tasks, h.tasks)
        || slots_are_broken(h.waiters, slots, h.tasks, h.strictly_fair())
        || reservation_is_broken(h.reservation, slots, h.tasks)
        || closed_is_broken(h.closed, h.waiters.len, h.reservation.is_some())
}

// A lent array of another length.
fn lengths_differ(w: ReadWords) -> bool
    ensures { result ≡ other_lengths (words_read w.entry) w.entry.grants.now }
{
    w.slots.len() != 320
        || w.tasks.len() != 32
        || w.sizes.len() != 64
        || w.rows.len() != 1024
        || w.last.len() != 16
        || w.makers.len() != 512
        || w.clocks.len() != 256
        || w.grants.len() != 96
}

// Whether what is handed in is broken.
pub fn is_broken(s: BatchSemaphore, w: ReadWords) -> bool
    ensures { Judged s (words_read w.entry) w.entry.grants.now result }
{
    lengths_differ(w)
        || s.batches.is_broken(w.sizes, s.head.stock)
        || who_is_broken(s.head, w.slots, w.tasks)
}
