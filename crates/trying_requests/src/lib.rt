// The contract of each call that makes a request with that call as its body, all words by value: a place to try wrong answers as wrong code.
// Each edit in must-fail/ answers wrongly, and the contract rules it out.
#![tactic(auto)]

ghost use Rattle.rules.specs.declared.Act.TheVariants.{Acquire, AcquireBypassable, AcquireReserving, Upgrade};
ghost use Rattle.rules.specs.Steps.{◌does◌};
ghost use Rattle.arrays.specs.Arrays.{Owes};

use arrays::{Arrays, Came};
use rules::{Act, TaskId};
use state::BatchSemaphore;

pub fn acquire(s: BatchSemaphore, w: Arrays, me: TaskId, num_permits: u32) -> Came
    ensures { Owes s w (me does Acquire num_permits) result }
{
    arrays::act(s, w, me, Act::Acquire(num_permits))
}

pub fn acquire_bypassable(s: BatchSemaphore, w: Arrays, me: TaskId, num_permits: u32) -> Came
    ensures { Owes s w (me does AcquireBypassable num_permits) result }
{
    arrays::act(s, w, me, Act::AcquireBypassable(num_permits))
}

pub fn acquire_reserving(s: BatchSemaphore, w: Arrays, me: TaskId, least: u32, asked: u32) -> Came
    ensures { Owes s w (me does AcquireReserving least asked) result }
{
    arrays::act(s, w, me, Act::AcquireReserving { least, asked })
}

pub fn upgrade(s: BatchSemaphore, w: Arrays, me: TaskId, held: u32, wanted: u32) -> Came
    ensures { Owes s w (me does Upgrade held wanted) result }
{
    arrays::act(s, w, me, Act::Upgrade { held, wanted })
}
