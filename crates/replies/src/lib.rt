// What a call replies: document 01's answers, and its refusals by name.
#![tactic(auto)]

ghost use Rattle.std.specs.Prelude.{◌≡◌};
ghost use Rattle.replies.specs.Answers.{number_of};

use rules::Slot;

// A refusal, named; as a `u8` it is document 01's number.
#[derive(Clone, Copy)]
pub enum Refusal {
    NoSuchTask,
    NotRunnable,
    NoSuchRequest,
    Completed,
    AsksNothing,
    StrictlyFair,
    BadCounts,
    NoFreeSlot,
    NoRoom,
    TooMany,
    LastTick,
    Broken,
}

#[derive(Clone, Copy)]
pub enum Reply {
    Done,
    Granted,
    Pending,
    Closed,
    NoPermits,
    Made(Slot),
    Refused(Refusal),
}

impl From<Refusal> for u8 {
    ghost from_gives = { λ r n. n ≡ number_of r };

    fn from(r: Refusal) -> u8 {
        match r {
            Refusal::NoSuchTask => 1,
            Refusal::NotRunnable => 2,
            Refusal::NoSuchRequest => 3,
            Refusal::Completed => 4,
            Refusal::AsksNothing => 5,
            Refusal::StrictlyFair => 6,
            Refusal::BadCounts => 7,
            Refusal::NoFreeSlot => 8,
            Refusal::NoRoom => 9,
            Refusal::TooMany => 10,
            Refusal::LastTick => 11,
            Refusal::Broken => 14,
        }
    }
}
