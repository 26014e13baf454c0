// Who waits, by slot number: the queue, after the source's `VecDeque<Arc<Waiter>>`.
#![tactic(auto)]

ghost use Rattle.std.specs.Prelude.{◌≡◌, position, remove, slice_get, [], ◌∷◌, ◌++◌, ◌+◌, ◌-◌, ◌≤◌, ◌<◌, length, get_or, take, drop};
ghost use Rattle.rules.specs.State.{same_slot};
ghost use Rattle.rules.specs.Scan.{without};
ghost use Rattle.queue.specs.View.{waiters_of, slot0, Holds};

use rules::Slot;

#[derive(Clone, Copy)]
pub struct Waiters {
    pub slots: [Slot; 32],
    pub len: u32,
}

#[tactic(auto, unfolding(crate::specs::View::waiters_of))]
impl Waiters {
    // The most that can wait in the queue.
    pub const PLACES: usize = 32;

    pub fn new() -> Waiters
        ensures { Holds result [] }
    {
        Waiters {
            slots: [Slot(0); 32],
            len: 0,
        }
    }

    // How many slots stand in the array. Any length may be handed in: refusal 14 sees one above the places there are.
    pub fn length(self) -> usize
        ensures { result ≡ length (waiters_of self) }
    {
        self.in_use().len()
    }

    // The slots that wait, from the front.
    pub fn in_use(&self) -> &[Slot]
        ensures { result.now ≡ waiters_of self.now }
    {
        &self.slots[..(self.len as usize).min(Waiters::PLACES)]
    }

    // Who waits first.
    pub fn front(&self) -> Option<Slot>
        ensures { result ≡ slice_get (waiters_of self.now) 0 }
    {
        self.in_use().first().copied()
    }

    // The slot at place i.
    pub fn at(self, i: usize) -> Slot
        requires { (i < self.len) × (self.len ≤ 32) }
        ensures { result ≡ get_or (waiters_of self) i slot0 }
    {
        self.slots[i]
    }

    pub fn push_back(self, x: Slot) -> Waiters
        requires { length (waiters_of self) < 32 }
        ensures { Holds result (waiters_of self ++ x ∷ []) }
    {
        let mut out = self;
        out.slots[self.len as usize] = x;
        out.len += 1;
        out
    }

    pub fn push_front(self, x: Slot) -> Waiters
        requires { length (waiters_of self) < 32 }
        ensures { Holds result (x ∷ waiters_of self) }
    {
        let mut out = self;
        out.slots.copy_within(..self.len as usize, 1);
        out.slots[0] = x;
        out.len += 1;
        out
    }

    // Where the slot first stands.
    pub fn position(self, x: Slot) -> Option<usize>
        ensures { result ≡ position (same_slot x) (waiters_of self) }
    {
        self.in_use().iter().position(|&y| x == y)
    }

    // Without the slot at place i.
    pub fn remove_at(self, i: usize) -> Waiters
        requires { (i < self.len) × (self.len ≤ 32) }
        ensures { Holds result (remove (waiters_of self) i) }
    {
        let mut out = self;
        out.slots.copy_within(i + 1..self.len as usize, i);
        out.len -= 1;
        out
    }

    // Without the slot, where it first stands.
    pub fn remove(self, x: Slot) -> Waiters
        requires { self.len ≤ 32 }
        ensures { Holds result (without x (waiters_of self)) }
    {
        match self.position(x) {
            Some(i) => self.remove_at(i),
            None => self,
        }
    }
}
