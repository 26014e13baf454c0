// The clocks of tasks that task 0 spawned in number order (document 02, No. 2), row by row in lent words.
#![tactic(auto)]

ghost use Rattle.std.specs.Prelude.{◌≡◌, ◌+◌, ◌-◌, ◌≤◌, ◌<◌, replicate};
ghost use Rattle.rules.specs.Sizes.{max_tasks};
ghost use Rattle.spawning.specs.Rows.{rows_after, spawned_in};

// One child more than k: task 0 ticks, and the child starts with a copy of its clock, of which only the first entry is not zero.
fn spawn_child(n: usize, k: usize, starts: &mut [u32; 256])
    requires { (k + 1 < n) × (n ≤ max_tasks) × (starts.old ≡ rows_after n k) }
    ensures { starts.new ≡ rows_after n (k + 1) }
{
    let i = k + 1;
    starts[0] = i as u32;
    starts[i * n] = i as u32;
}

fn spawn_children(n: usize, starts: &mut [u32; 256])
    requires { (n ≤ max_tasks) × (starts.old ≡ replicate 256 0) }
    ensures { starts.new ≡ rows_after n (n - 1) }
{
    for k in 0..n.saturating_sub(1) {
        spawn_child(n, k, starts);
    }
}

// The clocks of so many tasks; 12 refuses more than 16 whatever their clocks.
pub fn spawn(tasks: u32, starts: &mut [u32; 256])
    ensures { starts.new ≡ spawned_in tasks }
{
    *starts = [0u32; 256];
    if tasks <= 16 {
        spawn_children(tasks as usize, starts);
    }
}
