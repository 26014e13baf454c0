// The whole state of a semaphore: the small struct that every call takes and gives back by value, beside the words that the caller lends;
// and the reads of it, which refuse nothing and ask nothing of what they are handed.
#![tactic(auto)]

ghost use Rattle.std.specs.Prelude.{◌≡◌, min, length};
ghost use Rattle.rules.specs.Sizes.{max_tasks};
ghost use Rattle.rules.specs.State.{strict as strict_of, available as available_of, stock as stock_of, task_at, request_at};
ghost use Rattle.splitting.specs.Split.{forget_task};
ghost use Rattle.records.specs.View.{task_seen};
ghost use Rattle.state.specs.View.{Words, words_of, words_read, view_of, RequestRead};

use batches::Batches;
use clock::VectorClock;
use head::Head;
use records::{Request, Task};
use replies::Reply;
use rules::{Slot, TaskId};

#[derive(Clone, Copy)]
pub struct BatchSemaphore {
    pub head: Head,
    pub batches: Batches,
}

// All words that a caller lends to a call, each array by what stands in it.
#[derive(Drop)]
pub struct LentWords<'a> {
    // the requests by slot, without clocks: 32 of 10 words
    pub slots: &'a mut [u32],
    // the tasks, without clocks: 16 of 2 words
    pub tasks: &'a mut [u32],
    // the sizes of the batches: 64
    pub sizes: &'a mut [u32],
    // the clocks of the batches: 64 of 16 words
    pub rows: &'a mut [u32],
    // the clock of the last taking: 16 words
    pub last: &'a mut [u32],
    // the clocks of the requests' makers, by slot: 32 of 16 words
    pub makers: &'a mut [u32],
    // the clocks of the tasks: 16 of 16 words
    pub clocks: &'a mut [u32],
    // room for what a step grants: 32 of 3 words
    pub grants: &'a mut [u32],
}

// The same words, lent to be read.
#[derive(Clone, Copy)]
pub struct ReadWords<'a> {
    pub slots: &'a [u32],
    pub tasks: &'a [u32],
    pub sizes: &'a [u32],
    pub rows: &'a [u32],
    pub last: &'a [u32],
    pub makers: &'a [u32],
    pub clocks: &'a [u32],
    pub grants: &'a [u32],
}

impl LentWords<'_> {
    // The words as they stand, to be read.
    pub fn read(&self) -> ReadWords<'_>
        ensures state { words_read result ≡ words_of self.now }
        ensures grants { result.grants.now ≡ self.now.grants.now }
    {
        ReadWords {
            slots: self.slots,
            tasks: self.tasks,
            sizes: self.sizes,
            rows: self.rows,
            last: self.last,
            makers: self.makers,
            clocks: self.clocks,
            grants: self.grants,
        }
    }
}

// What a step answers: its reply, how many grants stand in their words, and the state.
#[derive(Clone, Copy)]
pub struct Stepped {
    pub reply: Reply,
    pub count: usize,
    pub state: BatchSemaphore,
}

// The tasks that have words, of so many.
fn worded(n: u32) -> u32
    ensures { result ≡ min n max_tasks }
{
    if n < 16 { n } else { 16 }
}

impl BatchSemaphore {
    // Whether it is strictly fair.
    pub fn strictly_fair(self) -> bool
        ensures { (w : Words) → result ≡ strict_of (view_of self w) }
    {
        let head = self.head;
        head.strictly_fair()
    }

    // The permits that a request can take now: none while one has the reservation.
    pub fn available_permits(self) -> u32
        ensures { (w : Words) → result ≡ available_of (view_of self w) }
    {
        let head = self.head;
        head.available_permits()
    }

    pub fn stock(self) -> u32
        ensures { (w : Words) → result ≡ stock_of (view_of self w) }
    {
        self.head.stock
    }

    pub fn is_closed(self) -> bool
        ensures { (w : Words) → result ≡ (view_of self w).closed }
    {
        self.head.closed
    }

    // How many requests are queued.
    pub fn queue_length(self) -> usize
        ensures { (w : Words) → result ≡ length (view_of self w).queue }
    {
        let head = self.head;
        head.queue_length()
    }

    // The task of a number; past the last, Runnable and unwoken.
    pub fn task(self, tasks: &[u32; 32], t: TaskId) -> Task
        ensures { (w : Words) → w.tasks ≡ tasks.now → task_seen result ≡ forget_task (task_at t (view_of self w)) }
    {
        let n = worded(self.head.tasks);
        words::task_at(tasks, n, t.0 as u32)
    }

    // The clock of a task; past the last, the empty clock.
    pub fn task_clock(self, clocks: &[u32; 256], t: TaskId) -> VectorClock
        ensures { (w : Words) → w.clocks ≡ clocks.now → result.0 ≡ (task_at t (view_of self w)).clock }
    {
        let i = t.0 as usize;
        if self.head.tasks <= t.0 as u32 {
            return VectorClock::new();
        }
        times::clock_in(clocks, times::TASKS, i)
    }

    // The request in a slot, and whether there is one.
    pub fn request(self, slots: &[u32; 320], x: Slot) -> Request
        ensures { (w : Words) → w.slots ≡ slots.now → RequestRead result x (view_of self w) }
    {
        words::request_at(slots, x)
    }

    // The clock of the request in a slot; in a free one, the empty clock.
    pub fn request_clock(self, slots: &[u32; 320], makers: &[u32; 512], x: Slot) -> VectorClock
        ensures { (w : Words) → w.slots ≡ slots.now → w.makers ≡ makers.now → result.0 ≡ (request_at x (view_of self w)).clock }
    {
        let r = words::request_at(slots, x);
        if r.used {
            return times::clock_in(makers, times::SLOTS, x.0 as usize);
        }
        VectorClock::new()
    }
}
