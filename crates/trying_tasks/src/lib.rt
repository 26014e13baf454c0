// The contract of releasing, closing, sleeping and finishing with that call as its body, all words by value: a place to try wrong answers as wrong code.
// Each edit in must-fail/ answers wrongly, and the contract rules it out.
#![tactic(auto)]

ghost use Rattle.rules.specs.declared.Act.TheVariants.{Release, Close, Sleep, Finish};
ghost use Rattle.rules.specs.Steps.{◌does◌};
ghost use Rattle.arrays.specs.Arrays.{Owes};

use arrays::{Arrays, Came};
use rules::{Act, TaskId};
use state::BatchSemaphore;

pub fn release(s: BatchSemaphore, w: Arrays, me: TaskId, num_permits: u32) -> Came
    ensures { Owes s w (me does Release num_permits) result }
{
    arrays::act(s, w, me, Act::Release(num_permits))
}

pub fn close(s: BatchSemaphore, w: Arrays, me: TaskId) -> Came
    ensures { Owes s w (me does Close) result }
{
    arrays::act(s, w, me, Act::Close)
}

pub fn sleep(s: BatchSemaphore, w: Arrays, me: TaskId) -> Came
    ensures { Owes s w (me does Sleep) result }
{
    arrays::act(s, w, me, Act::Sleep)
}

pub fn finish(s: BatchSemaphore, w: Arrays, me: TaskId) -> Came
    ensures { Owes s w (me does Finish) result }
{
    arrays::act(s, w, me, Act::Finish)
}
