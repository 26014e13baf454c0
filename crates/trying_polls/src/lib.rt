// The contract of polling and dropping a request with that call as its body, all words by value: a place to try wrong answers as wrong code.
// Each edit in must-fail/ answers wrongly, and the contract rules it out.
#![tactic(auto)]

ghost use Rattle.rules.specs.declared.Act.TheVariants.{Poll, Drop};
ghost use Rattle.rules.specs.Steps.{◌does◌};
ghost use Rattle.arrays.specs.Arrays.{Owes};

use arrays::{Arrays, Came};
use rules::{Act, Slot, TaskId};
use state::BatchSemaphore;

pub fn poll(s: BatchSemaphore, w: Arrays, me: TaskId, x: Slot) -> Came
    ensures { Owes s w (me does Poll x) result }
{
    arrays::act(s, w, me, Act::Poll(x))
}

pub fn drop(s: BatchSemaphore, w: Arrays, me: TaskId, x: Slot) -> Came
    ensures { Owes s w (me does Drop x) result }
{
    arrays::act(s, w, me, Act::Drop(x))
}
