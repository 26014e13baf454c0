// The contract of the step and of the tries with that call as its body, all words by value: a place to try wrong answers as wrong code.
// Each edit in must-fail/ answers wrongly, and the contract rules it out.
#![tactic(auto)]

ghost use Rattle.rules.specs.declared.Act.TheVariants.{Try, TryUpgrade};
ghost use Rattle.rules.specs.Steps.{◌does◌};
ghost use Rattle.arrays.specs.Arrays.{Owes};

use arrays::{Arrays, Came};
use rules::{Act, Step, TaskId};
use state::BatchSemaphore;

pub fn step(s: BatchSemaphore, w: Arrays, a: Step) -> Came
    ensures { Owes s w a result }
{
    arrays::step(s, w, a)
}

pub fn try_acquire(s: BatchSemaphore, w: Arrays, me: TaskId, num_permits: u32) -> Came
    ensures { Owes s w (me does Try num_permits) result }
{
    arrays::act(s, w, me, Act::Try(num_permits))
}

pub fn try_upgrade(s: BatchSemaphore, w: Arrays, me: TaskId, held: u32, wanted: u32) -> Came
    ensures { Owes s w (me does TryUpgrade held wanted) result }
{
    arrays::act(s, w, me, Act::TryUpgrade { held, wanted })
}
