// The fresh state that a first line says, in words that the caller lends.
#![tactic(auto)]

ghost use Rattle.std.specs.Prelude.{◌≡◌, length};
ghost use Rattle.rules.specs.Spawning.{spawned};
ghost use Rattle.rules.specs.Runs.{start as begun};
ghost use Rattle.state.specs.View.{words};
ghost use Rattle.fresh.specs.Starting.{Gives};
ghost use Rattle.script.specs.Opening.{start_said};
ghost use Rattle.reading.specs.Starts.{start_read};

use fresh::Refused;
use script::First;
use state::BatchSemaphore;

// With starting clocks, row by row.
fn start_with(
    a: First,
    starts: &[u32],
    slots: &mut [u32; 320],
    tasks: &mut [u32; 32],
    sizes: &mut [u32; 64],
    rows: &mut [u32; 1024],
    last: &mut [u32; 16],
    makers: &mut [u32; 512],
    clocks: &mut [u32; 256],
) -> Result<BatchSemaphore, Refused>
    ensures { Gives result (words slots.new tasks.new sizes.new rows.new last.new makers.new clocks.new) (begun (start_said a starts.now)) }
{
    fresh::start(
        a.fairness, a.stock, a.tasks, starts, a.maker, slots, tasks, sizes, rows, last, makers,
        clocks,
    )
}

// With the clocks that stand in words from the first on: 256 of them, as a slice, since a part of a lent array cannot be lent on.
pub fn start(
    a: First,
    starts: &[u32],
    slots: &mut [u32; 320],
    tasks: &mut [u32; 32],
    sizes: &mut [u32; 64],
    rows: &mut [u32; 1024],
    last: &mut [u32; 16],
    makers: &mut [u32; 512],
    clocks: &mut [u32; 256],
) -> Result<BatchSemaphore, Refused>
    requires { length starts.now ≡ 256 }
    ensures { Gives result (words slots.new tasks.new sizes.new rows.new last.new makers.new clocks.new) (begun (start_read a starts.now)) }
{
    let n = reading::entries_of(a.tasks);
    start_with(
        a,
        &starts[..n],
        slots,
        tasks,
        sizes,
        rows,
        last,
        makers,
        clocks,
    )
}

// With the clocks of tasks that were spawned.
pub fn start_spawned(
    a: First,
    slots: &mut [u32; 320],
    tasks: &mut [u32; 32],
    sizes: &mut [u32; 64],
    rows: &mut [u32; 1024],
    last: &mut [u32; 16],
    makers: &mut [u32; 512],
    clocks: &mut [u32; 256],
) -> Result<BatchSemaphore, Refused>
    ensures { Gives result (words slots.new tasks.new sizes.new rows.new last.new makers.new clocks.new) (begun (start_said a (spawned a.tasks))) }
{
    let mut starts = [0u32; 256];
    spawning::spawn(a.tasks, &mut starts);
    start(a, &starts, slots, tasks, sizes, rows, last, makers, clocks)
}
