// Every call of a batch semaphore: for any struct and any words handed in, and any numbers. The struct goes by value, the words are lent.
// Each call returns a reply, how many grants stand in their words, and the struct; a refusal returns its number, no grants, and the struct
// and every word exactly as they came in.
#![tactic(auto)]

ghost use Rattle.rules.specs.declared.Act.TheVariants.{Acquire, AcquireBypassable, AcquireReserving, Upgrade, Poll, Try, TryUpgrade, Release, Drop, Close, Sleep, Finish};
ghost use Rattle.rules.specs.Steps.{◌does◌};
ghost use Rattle.state.specs.View.{words_of, SameWords};
ghost use Rattle.semaphore.specs.Contract.{Steps};

use replies::{Refusal, Reply};
use rules::{Act, Slot, Step, TaskId};
use state::{BatchSemaphore, LentWords, Stepped};

// Any step, as a value: each call below is the step of its own act. Refused: 14, 1, 2, and what its act meets.
pub fn step(s: BatchSemaphore, w: &mut LentWords, a: Step) -> Stepped
    ensures same { SameWords w.old w.new }
    ensures steps { Steps s (words_of w.old) w.old.grants.now a result (words_of w.new) w.new.grants.now }
{
    if broken::is_broken(s, w.read()) {
        return Stepped {
            reply: Reply::Refused(Refusal::Broken),
            count: 0,
            state: s,
        };
    }
    stepping::step_on(s, w, a)
}

// Makes a request in the lowest free slot. Refused: 14, 1, 2, 8.
pub fn acquire(s: BatchSemaphore, w: &mut LentWords, me: TaskId, num_permits: u32) -> Stepped
    ensures same { SameWords w.old w.new }
    ensures steps { Steps s (words_of w.old) w.old.grants.now (me does Acquire num_permits) result (words_of w.new) w.new.grants.now }
{
    let act = Act::Acquire(num_permits);
    step(s, w, Step { actor: me, act })
}

// Makes a bypassable request, which others may pass. Refused: 14, 1, 2, 8.
pub fn acquire_bypassable(
    s: BatchSemaphore,
    w: &mut LentWords,
    me: TaskId,
    num_permits: u32,
) -> Stepped
    ensures same { SameWords w.old w.new }
    ensures steps { Steps s (words_of w.old) w.old.grants.now (me does AcquireBypassable num_permits) result (words_of w.new) w.new.grants.now }
{
    let act = Act::AcquireBypassable(num_permits);
    step(s, w, Step { actor: me, act })
}

// Makes a reserving request, which from its least on takes the reservation. Refused: 14, 1, 2, 6, 7, 8.
pub fn acquire_reserving(
    s: BatchSemaphore,
    w: &mut LentWords,
    me: TaskId,
    least: u32,
    num_permits: u32,
) -> Stepped
    ensures same { SameWords w.old w.new }
    ensures steps { Steps s (words_of w.old) w.old.grants.now (me does AcquireReserving least num_permits) result (words_of w.new) w.new.grants.now }
{
    let act = Act::AcquireReserving {
        least,
        asked: num_permits,
    };
    step(s, w, Step { actor: me, act })
}

// Makes a request for what is missing between the permits held and those wanted. Refused: 14, 1, 2, 7, 8.
pub fn upgrade(s: BatchSemaphore, w: &mut LentWords, me: TaskId, held: u32, wanted: u32) -> Stepped
    ensures same { SameWords w.old w.new }
    ensures steps { Steps s (words_of w.old) w.old.grants.now (me does Upgrade held wanted) result (words_of w.new) w.new.grants.now }
{
    let act = Act::Upgrade { held, wanted };
    step(s, w, Step { actor: me, act })
}

// Polls a request: Granted, Pending or Closed. Refused: 14, 1, 2, 3, 4, 5, 11.
pub fn poll(s: BatchSemaphore, w: &mut LentWords, me: TaskId, x: Slot) -> Stepped
    ensures same { SameWords w.old w.new }
    ensures steps { Steps s (words_of w.old) w.old.grants.now (me does Poll x) result (words_of w.new) w.new.grants.now }
{
    let act = Act::Poll(x);
    step(s, w, Step { actor: me, act })
}

// Takes permits now, or never. Refused: 14, 1, 2, 5, 11.
pub fn try_acquire(s: BatchSemaphore, w: &mut LentWords, me: TaskId, num_permits: u32) -> Stepped
    ensures same { SameWords w.old w.new }
    ensures steps { Steps s (words_of w.old) w.old.grants.now (me does Try num_permits) result (words_of w.new) w.new.grants.now }
{
    let act = Act::Try(num_permits);
    step(s, w, Step { actor: me, act })
}

// Takes what is missing between the permits held and those wanted, now or never. Refused: 14, 1, 2, 7, 11.
pub fn try_upgrade(
    s: BatchSemaphore,
    w: &mut LentWords,
    me: TaskId,
    held: u32,
    wanted: u32,
) -> Stepped
    ensures same { SameWords w.old w.new }
    ensures steps { Steps s (words_of w.old) w.old.grants.now (me does TryUpgrade held wanted) result (words_of w.new) w.new.grants.now }
{
    let act = Act::TryUpgrade { held, wanted };
    step(s, w, Step { actor: me, act })
}

// Gives permits back: those who wait for them are granted or woken. Refused: 14, 1, 2, 10, 9, 11.
pub fn release(s: BatchSemaphore, w: &mut LentWords, me: TaskId, num_permits: u32) -> Stepped
    ensures same { SameWords w.old w.new }
    ensures steps { Steps s (words_of w.old) w.old.grants.now (me does Release num_permits) result (words_of w.new) w.new.grants.now }
{
    let act = Act::Release(num_permits);
    step(s, w, Step { actor: me, act })
}

// Drops a request: it waits no more, and what it holds without having completed is given back. Refused: 14, 1, 2, 3, 10, 9, 11.
pub fn drop(s: BatchSemaphore, w: &mut LentWords, me: TaskId, x: Slot) -> Stepped
    ensures same { SameWords w.old w.new }
    ensures steps { Steps s (words_of w.old) w.old.grants.now (me does Drop x) result (words_of w.new) w.new.grants.now }
{
    let act = Act::Drop(x);
    step(s, w, Step { actor: me, act })
}

// Closes the semaphore and wakes all who wait. Refused: 14, 1, 2.
pub fn close(s: BatchSemaphore, w: &mut LentWords, me: TaskId) -> Stepped
    ensures same { SameWords w.old w.new }
    ensures steps { Steps s (words_of w.old) w.old.grants.now (me does Close) result (words_of w.new) w.new.grants.now }
{
    let act = Act::Close;
    step(s, w, Step { actor: me, act })
}

// Puts the task to sleep, unless it was woken. Refused: 14, 1, 2.
pub fn sleep(s: BatchSemaphore, w: &mut LentWords, me: TaskId) -> Stepped
    ensures same { SameWords w.old w.new }
    ensures steps { Steps s (words_of w.old) w.old.grants.now (me does Sleep) result (words_of w.new) w.new.grants.now }
{
    let act = Act::Sleep;
    step(s, w, Step { actor: me, act })
}

// Finishes the task. Refused: 14, 1, 2.
pub fn finish(s: BatchSemaphore, w: &mut LentWords, me: TaskId) -> Stepped
    ensures same { SameWords w.old w.new }
    ensures steps { Steps s (words_of w.old) w.old.grants.now (me does Finish) result (words_of w.new) w.new.grants.now }
{
    let act = Act::Finish;
    step(s, w, Step { actor: me, act })
}
