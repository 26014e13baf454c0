// A task's record, lent and altered where it stands: each function calls the one on the value that crate records proves.
#![tactic(auto)]

ghost use Rattle.std.specs.Prelude.{◌≡◌};
ghost use Rattle.std.specs.Fn.{FnOnceReturnsAtMut};
ghost use Rattle.splitting.specs.Plain.{blocked, unblocked, wakened};
ghost use Rattle.records.specs.View.{task_seen};

use records::Task;

// A change of the record where it stands.
fn alter<F: FnOnce(Task) -> Task>(t: &mut Task, change: F)
    requires { F.pre change t.old }
    ensures { F.post change t.old t.new }
{
    *t = change(*t);
}

pub fn block(t: &mut Task)
    ensures { task_seen t.new ≡ blocked (task_seen t.old) }
{
    alter(t, |u| u.block());
}

pub fn unblock(t: &mut Task)
    ensures { task_seen t.new ≡ unblocked (task_seen t.old) }
{
    alter(t, |u| u.unblock());
}

pub fn wake(t: &mut Task)
    ensures { task_seen t.new ≡ wakened (task_seen t.old) }
{
    alter(t, |u| u.wake());
}

// By value again, for callers that hold the record: a copy of it is lent.
fn altered<F: FnOnce(&mut Task)>(t: Task, change: F) -> Task
    requires { F.IsAlwaysCallable change }
    ensures { FnOnceReturnsAtMut F.FnOnce change t tt result }
{
    let mut u = t;
    change(&mut u);
    u
}

pub fn halted(t: Task) -> Task
    ensures { task_seen result ≡ blocked (task_seen t) }
{
    altered(t, block)
}

pub fn freed(t: Task) -> Task
    ensures { task_seen result ≡ unblocked (task_seen t) }
{
    altered(t, unblock)
}

pub fn woke(t: Task) -> Task
    ensures { task_seen result ≡ wakened (task_seen t) }
{
    altered(t, wake)
}
