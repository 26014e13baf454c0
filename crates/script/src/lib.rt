// What a line of a script says: a step, or for the first line a start.
#![tactic(auto)]

ghost use Rattle.std.specs.Prelude.{◌≡◌, ◌∷◌, [], ◌≤◌, min, length, option_map};
ghost use Rattle.rules.specs.Script.{maker_of, start_of, step_of};
ghost use Rattle.script.specs.Opening.{Opens, maker_within, start_within, tasks_on, maker_on, stock_on};
ghost use Rattle.script.specs.Saying.{within, acting_by, saying, saying_on};

use rules::{Act, Fairness, Slot, Step, TaskId};
use text::Reading;

// What a start is given besides its clocks.
#[derive(Clone, Copy)]
pub struct First {
    pub fairness: Fairness,
    pub stock: u32,
    pub maker: Option<TaskId>,
    pub tasks: u32,
}

// What a first line says: a start whose tasks were spawned, or one whose clocks stand in the line from a place on.
#[derive(Clone, Copy)]
pub enum Opening {
    Spawned(First),
    Given(First, usize),
}

// The number by which a task or a slot is named: no task and no slot has the number 255, which stands for every larger one too.
fn named(n: u32) -> u8
    ensures { result ≡ min n 255 }
{
    u8::try_from(n).unwrap_or(255)
}

fn step_by(t: u32, act: Act) -> Option<Step>
    ensures { result ≡ acting_by t act }
{
    Some(Step {
        actor: TaskId(named(t)),
        act,
    })
}

// What a letter says with the actor t and no more numbers, with one more, and with two more.
fn no_more(letter: u8, t: u32) -> Option<Step>
    ensures { result ≡ saying letter (t ∷ []) }
{
    match letter {
        b'C' => step_by(t, Act::Close),
        b'Z' => step_by(t, Act::Sleep),
        b'F' => step_by(t, Act::Finish),
        _ => None,
    }
}

fn one_more(letter: u8, t: u32, n: u32) -> Option<Step>
    ensures { result ≡ saying letter (t ∷ n ∷ []) }
{
    match letter {
        b'A' => step_by(t, Act::Acquire(n)),
        b'B' => step_by(t, Act::AcquireBypassable(n)),
        b'P' => step_by(t, Act::Poll(Slot(named(n)))),
        b'T' => step_by(t, Act::Try(n)),
        b'L' => step_by(t, Act::Release(n)),
        b'D' => step_by(t, Act::Drop(Slot(named(n)))),
        _ => None,
    }
}

fn two_more(letter: u8, t: u32, n: u32, m: u32) -> Option<Step>
    ensures { result ≡ saying letter (t ∷ n ∷ m ∷ []) }
{
    match letter {
        b'R' => step_by(t, Act::AcquireReserving { least: n, asked: m }),
        b'U' => step_by(t, Act::Upgrade { held: n, wanted: m }),
        b'V' => step_by(t, Act::TryUpgrade { held: n, wanted: m }),
        _ => None,
    }
}

// What a letter says with the numbers that stand in a line from a place on, behind none, the actor t, and a number n more: three functions, since
// each knows how many came before it.
fn after_letter(line: &[u8], at: usize, letter: u8) -> Option<Step>
    requires { at ≤ length line.now }
    ensures { result ≡ saying_on letter [] line.now at }
{
    match text::number_at(line, at)? {
        Reading::Last(t) => no_more(letter, t),
        Reading::Then(t, next) => after_actor(line, next, letter, t),
    }
}

fn after_actor(line: &[u8], at: usize, letter: u8, t: u32) -> Option<Step>
    requires { at ≤ length line.now }
    ensures { result ≡ saying_on letter (t ∷ []) line.now at }
{
    match text::number_at(line, at)? {
        Reading::Last(n) => one_more(letter, t, n),
        Reading::Then(n, next) => after_number(line, next, letter, t, n),
    }
}

fn after_number(line: &[u8], at: usize, letter: u8, t: u32, n: u32) -> Option<Step>
    requires { at ≤ length line.now }
    ensures { result ≡ saying_on letter (t ∷ n ∷ []) line.now at }
{
    match text::number_at(line, at)? {
        Reading::Last(m) => two_more(letter, t, n, m),
        Reading::Then(_, _) => None,
    }
}

// What a line says: a letter, the actor, numbers.
pub fn step_of(line: &[u8]) -> Option<Step>
    ensures { result ≡ within (step_of line.now) }
{
    let f = text::field(line, 0);
    let e = f.len();
    if line.len() <= e {
        return None;
    }
    after_letter(line, e + 1, text::letter(f))
}

// What the fields of a first line say from a place on: the tasks and their clocks; the maker and these; the stock and these.
fn tasks_at(
    line: &[u8],
    at: usize,
    fairness: Fairness,
    stock: u32,
    maker: Option<TaskId>,
) -> Option<Opening>
    requires { at ≤ length line.now }
    ensures { Opens line.now (tasks_on fairness stock maker line.now at) result }
{
    Some(match text::number_at(line, at)? {
        Reading::Last(tasks) => Opening::Spawned(First {
            fairness,
            stock,
            maker,
            tasks,
        }),
        Reading::Then(tasks, next) => Opening::Given(
            First {
                fairness,
                stock,
                maker,
                tasks,
            },
            next,
        ),
    })
}

// The maker that a field says: a dash for none, or a number.
fn maker_of(f: &[u8]) -> Option<Option<TaskId>>
    ensures { result ≡ option_map maker_within (maker_of f.now) }
{
    if text::letter(f) == b'-' {
        return Some(None);
    }
    let t = text::number_of(f)?;
    Some(Some(TaskId(named(t))))
}

fn maker_at(line: &[u8], at: usize, fairness: Fairness, stock: u32) -> Option<Opening>
    requires { at ≤ length line.now }
    ensures { Opens line.now (maker_on fairness stock line.now at) result }
{
    let f = text::field(line, at);
    let e = at + f.len();
    if line.len() <= e {
        return None;
    }
    let maker = maker_of(f)?;
    tasks_at(line, e + 1, fairness, stock, maker)
}

fn stock_at(line: &[u8], at: usize, fairness: Fairness) -> Option<Opening>
    requires { at ≤ length line.now }
    ensures { Opens line.now (stock_on fairness line.now at) result }
{
    match text::number_at(line, at)? {
        Reading::Last(_) => None,
        Reading::Then(stock, next) => maker_at(line, next, fairness, stock),
    }
}

// What the first line says: `S` or `U`, stock, maker or `-`, tasks; then starting clocks, or none.
pub fn start_of(line: &[u8]) -> Option<Opening>
    ensures { Opens line.now (start_within (start_of line.now)) result }
{
    let f = text::field(line, 0);
    let e = f.len();
    if line.len() <= e {
        return None;
    }
    let letter = text::letter(f);
    match letter {
        b'S' => stock_at(line, e + 1, Fairness::StrictlyFair),
        b'U' => stock_at(line, e + 1, Fairness::Unfair),
        _ => None,
    }
}
