// As `trying`, for the other public functions: the question about a point, the fresh states, and a script's run.
#![tactic(auto)]

ghost use Rattle.std.specs.Prelude.{◌≡◌, None, Some};
ghost use Rattle.rules.specs.Runs.{start};
ghost use Rattle.fresh.specs.Starting.{Gives};
ghost use Rattle.points.specs.Told.{told_by, answer_to};
ghost use Rattle.trace.specs.Running.{Prints};
ghost use Rattle.arrays.specs.Arrays.{words_in};

use arrays::{Arrays, StartedArrays};
use replies::Refusal;
use rules::{Fairness, Question, TaskId};
use state::BatchSemaphore;

pub fn point(s: BatchSemaphore, w: Arrays, me: TaskId, q: Question) -> Result<bool, Refusal>
    ensures { told_by result ≡ answer_to s (words_in w) w.grants me q }
{
    arrays::point(s, w, me, q)
}

pub fn new(
    fairness: Fairness,
    stock: u32,
    count: u32,
    starts: &[u32],
    maker: TaskId,
) -> StartedArrays
    ensures { Gives result.started (words_in result.arrays) (start (record { fairness = fairness; stock = stock; tasks = count; clocks = starts.now; maker = Some maker })) }
{
    arrays::new(fairness, stock, count, starts, maker)
}

pub fn const_new(fairness: Fairness, stock: u32, count: u32, starts: &[u32]) -> StartedArrays
    ensures { Gives result.started (words_in result.arrays) (start (record { fairness = fairness; stock = stock; tasks = count; clocks = starts.now; maker = None })) }
{
    arrays::const_new(fairness, stock, count, starts)
}

pub fn run(script: &[u8], out: &mut [u8]) -> usize
    ensures { Prints script.now out.old out.new result }
{
    trace::run(script, out)
}
