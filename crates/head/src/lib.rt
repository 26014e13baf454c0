// What is by value of who gets permits, after the source's `BatchSemaphoreState`: slots and tasks stand in words that the caller lends.
#![tactic(auto)]

ghost use Rattle.std.specs.Prelude.{◌≡◌, cond, length, is_some};
ghost use Rattle.rules.specs.State.{is_strict, is_the};
ghost use Rattle.queue.specs.View.{waiters_of};

use queue::Waiters;
use replies::Reply;
use rules::{Fairness, Slot};

#[derive(Clone, Copy)]
pub struct Head {
    pub fairness: Fairness,
    pub closed: bool,
    pub stock: u32,
    pub waiters: Waiters,
    pub reservation: Option<Slot>,
    pub tasks: u32,
}

// A head after some grants, and how many they are; the grants stand in words of their own.
#[derive(Clone, Copy)]
pub struct Granting {
    pub head: Head,
    pub count: usize,
}

// What a step answers: its reply, how many grants, and the head.
#[derive(Clone, Copy)]
pub struct Answered {
    pub reply: Reply,
    pub count: usize,
    pub head: Head,
}

impl Head {
    // Whether it is strictly fair.
    pub fn strictly_fair(self) -> bool
        ensures { result ≡ is_strict self.fairness }
    {
        self.fairness == Fairness::StrictlyFair
    }

    // The permits that a request can take now: none while one has the reservation.
    pub fn available_permits(self) -> u32
        ensures { result ≡ cond (is_some self.reservation) 0 self.stock }
    {
        if self.reservation.is_some() {
            return 0;
        }
        self.stock
    }

    // Whether the slot has the reservation.
    pub fn has_reservation(self, x: Slot) -> bool
        ensures { result ≡ is_the x self.reservation }
    {
        self.reservation == Some(x)
    }

    // How many requests are queued.
    pub fn queue_length(self) -> usize
        ensures { result ≡ length (waiters_of self.waiters) }
    {
        self.waiters.length()
    }
}
