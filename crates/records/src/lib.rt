// A task's record and a request's, by value and without clocks, after Shuttle's runtime/task/mod.rs and the source's `Waiter` and
// `Acquire`; how each is changed.
#![tactic(auto)]

ghost use Rattle.std.specs.Prelude.{◌≡◌, false, None, Some};
ghost use Rattle.rules.specs.Task.{is_runnable, is_finished, roused};
ghost use Rattle.rules.specs.Request.{plain_ask, reserving_ask};
ghost use Rattle.rules.specs.Steps.{upgrade_ask};
ghost use Rattle.rules.specs.Refusals.{bad_reserving};
ghost use Rattle.splitting.specs.Plain.{no_task, blocked, unblocked, wakened, slept, finished, unpolled, queued_as, held, polled_granted, polled_closed, polled_pending};
ghost use Rattle.records.specs.View.{task_seen, seen, Stands, Changed, marking};

use rules::{Ask, Priority, TaskId, TaskState};

#[derive(Clone, Copy)]
pub struct Task {
    pub state: TaskState,
    pub woken: bool,
}

// `task` is a word as it was handed in: it need not name a task.
#[derive(Clone, Copy)]
pub struct Request {
    pub used: bool,
    pub ask: Ask,
    pub task: u32,
    pub queued: bool,
    pub holding: bool,
    pub completed: bool,
    pub polled: bool,
}

// ---- tasks
// The state after a waker's call: a Sleeping task is unblocked.
fn rouse(s: TaskState) -> TaskState
    ensures { result ≡ roused s }
{
    match s {
        TaskState::Sleeping => TaskState::Runnable,
        _ => s,
    }
}

impl Task {
    // What stands where no task does: Runnable and unwoken.
    pub fn none() -> Task
        ensures { task_seen result ≡ no_task }
    {
        Task {
            state: TaskState::Runnable,
            woken: false,
        }
    }

    pub fn runnable(self) -> bool
        ensures { result ≡ is_runnable self.state }
    {
        self.state == TaskState::Runnable
    }

    pub fn finished(self) -> bool
        ensures { result ≡ is_finished self.state }
    {
        self.state == TaskState::Finished
    }

    pub fn block(self) -> Task
        ensures { task_seen result ≡ blocked (task_seen self) }
    {
        Task {
            state: TaskState::Blocked,
            woken: self.woken,
        }
    }

    pub fn unblock(self) -> Task
        ensures { task_seen result ≡ unblocked (task_seen self) }
    {
        Task {
            state: TaskState::Runnable,
            woken: self.woken,
        }
    }

    pub fn finish(self) -> Task
        ensures { task_seen result ≡ finished (task_seen self) }
    {
        Task {
            state: TaskState::Finished,
            woken: self.woken,
        }
    }

    pub fn sleep_unless_woken(self) -> Task
        ensures { task_seen result ≡ slept (task_seen self) }
    {
        let state = if self.woken {
            self.state
        } else {
            TaskState::Sleeping
        };
        Task {
            state,
            woken: false,
        }
    }

    pub fn wake(self) -> Task
        ensures { task_seen result ≡ wakened (task_seen self) }
    {
        Task {
            state: rouse(self.state),
            woken: true,
        }
    }
}

// ---- requests
// The ask of a request that takes all of its permits or none.
pub fn plain_ask(kind: Priority, num_permits: u32) -> Ask
    ensures { result ≡ plain_ask kind num_permits }
{
    Ask {
        asked: num_permits,
        least: num_permits,
        kind,
        reserving: false,
    }
}

// The ask of a request that may reserve the rest once its least is there.
pub fn reserving_ask(least: u32, num_permits: u32) -> Ask
    ensures { result ≡ reserving_ask least num_permits }
{
    Ask {
        asked: num_permits,
        least,
        kind: Priority::Back,
        reserving: true,
    }
}

// Refusal 7 of a reserving request: an ask of 0, or a least above the ask.
pub fn bad_reserving(least: u32, num_permits: u32) -> bool
    ensures { result ≡ bad_reserving least num_permits }
{
    num_permits == 0 || num_permits < least
}

// The ask of an upgrade for the difference: in front if strictly fair, else reserving whatever there is.
pub fn upgrade_ask(strictly_fair: bool, num_permits: u32) -> Ask
    ensures { result ≡ upgrade_ask strictly_fair num_permits }
{
    if strictly_fair {
        return plain_ask(Priority::Front, num_permits);
    }
    reserving_ask(0, num_permits)
}

// What a step does to a request's marks.
#[derive(Clone, Copy)]
pub enum Marking {
    Joins,
    Leaves,
    IsGranted,
    PollsGranted,
    PollsClosed,
    PollsPending(TaskId),
}

impl Request {
    // An unpolled request of the task.
    pub fn new(ask: Ask, task: TaskId) -> Request
        ensures { seen result ≡ Some (unpolled ask task) }
    {
        Request {
            used: true,
            ask,
            task: task.0 as u32,
            queued: false,
            holding: false,
            completed: false,
            polled: false,
        }
    }

    // What stands where no request does.
    pub fn none() -> Request
        ensures { Stands result None }
    {
        let ask = Ask {
            asked: 0,
            least: 0,
            kind: Priority::Back,
            reserving: false,
        };
        Request {
            used: false,
            ask,
            task: 0,
            queued: false,
            holding: false,
            completed: false,
            polled: false,
        }
    }

    // The request, if it is in use; else none.
    pub fn used_or_none(self) -> Request
        ensures { Stands result (seen self) }
    {
        if self.used {
            return self;
        }
        Request::none()
    }

    fn set_queued(self, queued: bool) -> Request
        ensures { Changed (queued_as queued) self result }
    {
        let mut out = self;
        out.queued = queued;
        out
    }

    // Granted by a scan: out of the queue, and holding.
    fn grant_permits(self) -> Request
        ensures { Changed (λ q. held (queued_as false q)) self result }
    {
        let mut out = self;
        out.queued = false;
        out.holding = true;
        out
    }

    // Polled: it holds what it asked for, and has completed.
    fn poll_granted(self) -> Request
        ensures { Changed polled_granted self result }
    {
        let mut out = self;
        out.polled = true;
        out.holding = true;
        out.completed = true;
        out
    }

    // Polled on a closed semaphore: it has completed.
    fn poll_closed(self) -> Request
        ensures { Changed polled_closed self result }
    {
        let mut out = self;
        out.polled = true;
        out.completed = true;
        out
    }

    // Polled in vain: whoever polled it is its task.
    fn poll_pending(self, me: TaskId) -> Request
        ensures { Changed (polled_pending me) self result }
    {
        let mut out = self;
        out.polled = true;
        out.task = me.0 as u32;
        out
    }

    pub fn mark(self, m: Marking) -> Request
        ensures { Changed (marking m) self result }
    {
        match m {
            Marking::Joins => self.set_queued(true),
            Marking::Leaves => self.set_queued(false),
            Marking::IsGranted => self.grant_permits(),
            Marking::PollsGranted => self.poll_granted(),
            Marking::PollsClosed => self.poll_closed(),
            Marking::PollsPending(me) => self.poll_pending(me),
        }
    }
}
