// What the lines of a script come to, one by one and unprinted: the first line a fresh state, each other line a step and its outcome.
// Whoever runs a script runs it here; what is printed, compared or drawn is read off what a line came to.
#![tactic(auto)]

ghost use Rattle.std.specs.Prelude.{◌≡◌, None, true, ◌<◌, length};
ghost use Rattle.replies.specs.declared.Reply.TheVariants.{Done};
ghost use Rattle.state.specs.View.{words, words_of, view_of, Fit, SameWords};
ghost use Rattle.walking.specs.Coming.{StartedBy, Begins, walked, Comes};

use reading::FirstLine;
use replies::Reply;
use script::First;
use state::{BatchSemaphore, LentWords, Stepped};

// A fresh state that the first line began, and where the next line starts.
#[derive(Clone, Copy)]
pub struct Begun {
    pub state: BatchSemaphore,
    pub next: usize,
}

// Why the first line began none: refusal 12, nothing that it says, or that there is no line.
#[derive(Clone, Copy)]
pub enum NotBegun {
    Refused,
    Bad,
    Nothing,
}

// After a line: whether it said no step; what its step answered, or the state as it was; and where the next line starts. No Option of a
// Stepped: `Comes` says the state after a line that said none, too.
#[derive(Clone, Copy)]
pub struct Walked {
    pub bad: bool,
    pub out: Stepped,
    pub next: usize,
}

// After a line, where the struct is lent: what its step answered and how many it granted, or none where it says no step; and where the next
// line starts.
#[derive(Clone, Copy)]
pub struct WalkedLent {
    pub answer: Option<(Reply, usize)>,
    pub next: usize,
}

// ---- the first line
// A start that the first line says.
fn begin_with(
    first: First,
    starts: &[u32],
    next: usize,
    slots: &mut [u32; 320],
    tasks: &mut [u32; 32],
    sizes: &mut [u32; 64],
    rows: &mut [u32; 1024],
    last: &mut [u32; 16],
    makers: &mut [u32; 512],
    clocks: &mut [u32; 256],
) -> Result<Begun, NotBegun>
    requires { length starts.now ≡ 256 }
    ensures { StartedBy first starts.now next result (words slots.new tasks.new sizes.new rows.new last.new makers.new clocks.new) }
{
    let started = starting::start(
        first, starts, slots, tasks, sizes, rows, last, makers, clocks,
    );
    match started {
        Ok(state) => Ok(Begun { state, next }),
        Err(_) => Err(NotBegun::Refused),
    }
}

// What the first line of a script comes to, in words that the caller lends, whatever stands in them.
pub fn begin(
    script: &[u8],
    slots: &mut [u32; 320],
    tasks: &mut [u32; 32],
    sizes: &mut [u32; 64],
    rows: &mut [u32; 1024],
    last: &mut [u32; 16],
    makers: &mut [u32; 512],
    clocks: &mut [u32; 256],
) -> Result<Begun, NotBegun>
    ensures { Begins script.now result (words slots.new tasks.new sizes.new rows.new last.new makers.new clocks.new) }
{
    let mut starts = [0u32; 256];
    match reading::read_first(script, &mut starts) {
        FirstLine::Is { first, next } => begin_with(
            first, &starts, next, slots, tasks, sizes, rows, last, makers, clocks,
        ),
        FirstLine::Bad => Err(NotBegun::Bad),
        FirstLine::Nothing => Err(NotBegun::Nothing),
    }
}

// ---- each other line
// What the line at a place of a script comes to, on a state that 14 does not refuse. The struct is lent too: a line that says no step leaves
// it alone, and nothing is copied for it.
pub fn walk_lent(script: &[u8], at: usize, s: &mut BatchSemaphore, w: &mut LentWords) -> WalkedLent
    requires { (at < length script.now) × Fit s.old (words_of w.old) w.old.grants.now }
    ensures same { SameWords w.old w.new }
    ensures comes { Comes script.now at (view_of s.old (words_of w.old)) (walked result s.new) (words_of w.new) w.new.grants.now }
    ensures stays { result.answer ≡ None → s.new ≡ s.old }
{
    let l = reading::read_line(script, at);
    let Some(a) = l.said else {
        return WalkedLent {
            answer: None,
            next: l.next,
        };
    };
    let r = stepping::step_on(*s, w, a);
    *s = r.state;
    WalkedLent {
        answer: Some((r.reply, r.count)),
        next: l.next,
    }
}

// The same, with the struct by value.
pub fn walk(script: &[u8], at: usize, s: BatchSemaphore, w: &mut LentWords) -> Walked
    requires { (at < length script.now) × Fit s (words_of w.old) w.old.grants.now }
    ensures same { SameWords w.old w.new }
    ensures comes { Comes script.now at (view_of s (words_of w.old)) result (words_of w.new) w.new.grants.now }
    ensures stays { result.bad ≡ true → result.out ≡ record { reply = Done; count = 0; state = s } }
{
    let mut state = s;
    let r = walk_lent(script, at, &mut state, w);
    let (reply, count) = r.answer.unwrap_or((Reply::Done, 0));
    Walked {
        bad: r.answer.is_none(),
        out: Stepped {
            reply,
            count,
            state,
        },
        next: r.next,
    }
}
