// Vector clocks (Fidge and Mattern), after Shuttle's runtime/task/clock.rs: an entry for each task.
#![tactic(auto)]

ghost use Rattle.std.specs.Prelude.{◌≡◌, ◌<◌, max, get_or};
ghost use Rattle.rules.specs.Sizes.{width, largest};
ghost use Rattle.rules.specs.Clock.{join, tick, empty};

use rules::TaskId;

#[derive(Clone, Copy)]
pub struct VectorClock(pub [u32; 16]);

impl VectorClock {
    // The entries of a clock.
    pub const WIDTH: usize = 16;

    // The empty clock.
    pub fn new() -> VectorClock
        ensures { result.0 ≡ empty width }
    {
        VectorClock([0; VectorClock::WIDTH])
    }

    // The clock after an event of the task `own`, whose entry is not yet the largest.
    pub fn increment(self, own: TaskId) -> VectorClock
        requires { (own.0 < width) × (get_or self.0 own.0 0 < largest) }
        ensures { result.0 ≡ tick own.0 self.0 }
    {
        let mut out = self;
        out.0[own.0 as usize] += 1;
        out
    }

    // The clock joined with another.
    pub fn update(self, other: VectorClock) -> VectorClock
        ensures { result.0 ≡ join self.0 other.0 }
    {
        let mut out = self;
        for i in 0..VectorClock::WIDTH {
            out.0[i] = self.0[i].max(other.0[i]);
        }
        out
    }

    // The entry of the task `i`: 0 where the clock has none.
    pub fn get(self, i: TaskId) -> u32
        ensures { result ≡ get_or self.0 i.0 0 }
    {
        *self.0.get(i.0 as usize).unwrap_or(&0)
    }
}
