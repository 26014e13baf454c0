// Closing, which is not waking: nobody waits any more, and whoever did is woken.
#![tactic(auto)]

ghost use Rattle.splitting.specs.Who.{empty_queue, drop_reservation, closing};
ghost use Rattle.queue.specs.View.{waiters_of};
ghost use Rattle.head.specs.View.{plain_of, Shaped, Shows};

use head::Head;
use queue::Waiters;
use records::Marking;
use rousing::Change;

// The queue is emptied from the front: each request leaves it, and its task is woken if it is not finished.
fn empty_queue(h: Head, slots: &mut [u32], tasks: &mut [u32]) -> Head
    requires { Shaped h slots.old tasks.old }
    ensures { Shows result slots.new tasks.new (empty_queue (waiters_of h.waiters) (plain_of h slots.old tasks.old)) }
{
    for &x in h.waiters.in_use() {
        words::mark(slots, x, Marking::Leaves);
        rousing::change_owner(slots, tasks, h.tasks, x, Change::Wake);
    }
    let mut out = h;
    out.waiters = Waiters::new();
    out
}

// The reservation is cleared, and its task is woken if it is not finished.
fn drop_reservation(h: Head, slots: &[u32], tasks: &mut [u32]) -> Head
    requires { Shaped h slots.now tasks.old }
    ensures { Shows result slots.now tasks.new (drop_reservation h.reservation (plain_of h slots.now tasks.old)) }
{
    let Some(x) = h.reservation else {
        return h;
    };
    rousing::change_owner(slots, tasks, h.tasks, x, Change::Wake);
    let mut out = h;
    out.reservation = None;
    out
}

// The semaphore is closed: its queue is emptied in order, then its reservation. Nothing if it was closed before.
pub fn close(h: Head, slots: &mut [u32], tasks: &mut [u32]) -> Head
    requires { Shaped h slots.old tasks.old }
    ensures { Shows result slots.new tasks.new (closing (plain_of h slots.old tasks.old)) }
{
    if h.closed {
        return h;
    }
    let mut shut = h;
    shut.closed = true;
    let emptied = empty_queue(shut, slots, tasks);
    drop_reservation(emptied, slots, tasks)
}
