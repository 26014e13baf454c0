// Whether a scheduling point comes before a step: questions that change nothing, in the place of the source's `thread::switch`.
#![tactic(auto)]

ghost use Rattle.std.specs.Prelude.{◌≡◌, true, List, ℕ, ◌*◌, length, get_or, None, IfOk, IfErr};
ghost use Rattle.rules.specs.declared.Slot.{Slot as SlotRule};
ghost use Rattle.rules.specs.declared.Question.TheVariants.{BeforeTryUpgrade, BeforePoll, BeforeDrop, BeforeDropAgain};
ghost use Rattle.rules.specs.Sizes.{slot_count};
ghost use Rattle.splitting.specs.Plain.{Plain};
ghost use Rattle.splitting.specs.Asking.{waits as waits_of, point as point_of, told_of};
ghost use Rattle.replies.specs.declared.Refusal.TheVariants.{NoSuchRequest};
ghost use Rattle.records.specs.View.{Stands};
ghost use Rattle.words.specs.View.{request_words, slots_of};
ghost use Rattle.head.specs.View.{plain_of, Shaped};
ghost use Rattle.state.specs.View.{words_read};
ghost use Rattle.points.specs.Told.{told_by, answer, answer_to};

use head::Head;
use records::Request;
use replies::Refusal;
use rules::{Question, Slot, TaskId};
use state::{BatchSemaphore, ReadWords};

// ---- points, of the request that was read at the slot
// A poll: when never polled, if strictly fair, holding, closed, or available at least the least.
fn before_poll(h: Head, r: Request) -> bool
    ensures { (x : SlotRule) (slots tasks : List ℕ) → Stands r (get_or (slots_of slots) x.0 None) → result ≡ point_of (BeforePoll x) (plain_of h slots tasks) }
{
    !r.polled
        && (h.strictly_fair() || r.holding || h.closed || r.ask.least <= h.available_permits())
}

// A drop's first question: queued or having the reservation.
fn waits(h: Head, x: Slot, r: Request) -> bool
    ensures { (slots tasks : List ℕ) → Stands r (get_or (slots_of slots) x.0 None) → result ≡ waits_of x (plain_of h slots tasks) }
{
    r.queued || h.has_reservation(x)
}

// A drop's second question: neither of these, but holding and not completed.
fn before_drop_again(h: Head, x: Slot, r: Request) -> bool
    ensures { (slots tasks : List ℕ) → Stands r (get_or (slots_of slots) x.0 None) → result ≡ point_of (BeforeDropAgain x) (plain_of h slots tasks) }
{
    !waits(h, x, r) && r.holding && !r.completed
}

// ---- questions, by their own grounds of refusal: whether a point comes, or why the question is refused
// The request that a question is about. Refused: 3.
fn request_at(slots: &[u32], x: Slot) -> Result<Request, Refusal>
    requires { length slots.now ≡ slot_count * request_words }
    ensures read { IfOk result (λ r. Stands r (get_or (slots_of slots.now) x.0 None)) }
    ensures used { IfOk result (λ r. r.used ≡ true) }
    ensures refused { IfErr result (λ w. (w ≡ NoSuchRequest) × (get_or (slots_of slots.now) x.0 None ≡ None)) }
{
    let r = words::request_at(slots, x);
    r.used.then_some(r).ok_or(Refusal::NoSuchRequest)
}

fn ask_try_upgrade(held: u32, wanted: u32) -> Result<bool, Refusal>
    ensures { (p : Plain) → told_by result ≡ answer (BeforeTryUpgrade held wanted) p }
{
    if planning::bad_upgrade(held, wanted) {
        return Err(Refusal::BadCounts);
    }
    Ok(true)
}

fn ask_poll(h: Head, slots: &[u32], x: Slot) -> Result<bool, Refusal>
    requires { length slots.now ≡ slot_count * request_words }
    ensures { (tasks : List ℕ) → told_by result ≡ answer (BeforePoll x) (plain_of h slots.now tasks) }
{
    let r = request_at(slots, x)?;
    if r.completed {
        return Err(Refusal::Completed);
    }
    Ok(before_poll(h, r))
}

fn ask_drop(h: Head, slots: &[u32], x: Slot) -> Result<bool, Refusal>
    requires { length slots.now ≡ slot_count * request_words }
    ensures { (tasks : List ℕ) → told_by result ≡ answer (BeforeDrop x) (plain_of h slots.now tasks) }
{
    let r = request_at(slots, x)?;
    Ok(waits(h, x, r))
}

fn ask_drop_again(h: Head, slots: &[u32], x: Slot) -> Result<bool, Refusal>
    requires { length slots.now ≡ slot_count * request_words }
    ensures { (tasks : List ℕ) → told_by result ≡ answer (BeforeDropAgain x) (plain_of h slots.now tasks) }
{
    let r = request_at(slots, x)?;
    Ok(before_drop_again(h, x, r))
}

// Before a try, a release and a close a point always comes.
fn ask_runnable(h: Head, slots: &[u32], q: Question) -> Result<bool, Refusal>
    requires { length slots.now ≡ slot_count * request_words }
    ensures { (tasks : List ℕ) → told_by result ≡ answer q (plain_of h slots.now tasks) }
{
    match q {
        Question::BeforeTry | Question::BeforeRelease | Question::BeforeClose => Ok(true),
        Question::BeforeTryUpgrade { held, wanted } => ask_try_upgrade(held, wanted),
        Question::BeforePoll(x) => ask_poll(h, slots, x),
        Question::BeforeDrop(x) => ask_drop(h, slots, x),
        Question::BeforeDropAgain(x) => ask_drop_again(h, slots, x),
    }
}

// A question about a state that is not broken: the actor's refusals first.
pub fn ask(h: Head, slots: &[u32], tasks: &[u32], me: TaskId, q: Question) -> Result<bool, Refusal>
    requires { Shaped h slots.now tasks.now }
    ensures { told_by result ≡ told_of me q (plain_of h slots.now tasks.now) }
{
    planning::check_actor(h, tasks, me)?;
    ask_runnable(h, slots, q)
}

// A question, for any struct, any words and any numbers; 14 where the step itself would give it. Refused: 14, 1, 2; a poll 3 and 4, a drop 3, a
// try-upgrade 7.
pub fn point(s: BatchSemaphore, w: ReadWords, me: TaskId, q: Question) -> Result<bool, Refusal>
    ensures { told_by result ≡ answer_to s (words_read w.entry) w.entry.grants.now me q }
{
    if broken::is_broken(s, w) {
        return Err(Refusal::Broken);
    }
    ask(s.head, w.slots, w.tasks, me, q)
}
