// The line that a step prints: its reply, what the state shows, and its grants.
#![tactic(auto)]

ghost use Rattle.std.specs.Prelude.{◌≡◌, List, ◌∷◌, ◌++◌, [], ℕ, ◌+◌, ◌*◌, ◌≤◌, ◌<◌, length};
ghost use Rattle.rules.specs.Sizes.{slot_count};
ghost use Rattle.rules.specs.Text.{space, comma, digits};
ghost use Rattle.rules.specs.Script.{closed_text, taker_text, grants_text, answer_text};
ghost use Rattle.replies.specs.Answers.{answer_of};
ghost use Rattle.words.specs.View.{taker_of, grants_of};
ghost use Rattle.head.specs.View.{plain_of};
ghost use Rattle.text.specs.Writing.{Appended};
ghost use Rattle.printing.specs.Printed.{takers_text, rest_text, counts_text, line_text, ShownBy};

use head::Head;
use replies::Reply;

// A grant's first word is the number of a slot below this, and else a try.
const TRY: u32 = 256;

// What a line shows of the state: available, stock, closed or not, queue length.
#[derive(Clone, Copy)]
pub struct Counts {
    pub available: u32,
    pub stock: u32,
    pub closed: bool,
    pub queued: u32,
}

// What a line shows of any state: slots and tasks do not show.
pub fn counts_of(h: Head) -> Counts
    ensures { (slots tasks : List ℕ) → ShownBy result (plain_of h slots tasks) }
{
    let available = h.available_permits();
    let queued = h.queue_length() as u32;
    Counts {
        available,
        stock: h.stock,
        closed: h.closed,
        queued,
    }
}

// Every printer below writes into a lent buffer, and asks for room for its text and for no more: a Display would not say how much it writes.

// A byte's number.
fn print_small(buf: &mut [u8], at: usize, n: u8) -> usize
    requires { at + length (digits n) ≤ length buf.old }
    ensures { Appended buf.old at (digits n) buf.new result }
{
    text::print_number(buf, at, u32::from(n))
}

// A number and a space.
fn print_field(buf: &mut [u8], at: usize, n: u32) -> usize
    requires { at + length (digits n ++ space ∷ []) ≤ length buf.old }
    ensures { Appended buf.old at (digits n ++ space ∷ []) buf.new result }
{
    let p = text::print_number(buf, at, n);
    text::put(buf, p, b" ")
}

// Yes or no as a number.
pub fn bit(b: bool) -> u32
    ensures { digits result ≡ closed_text b }
{
    u32::from(b)
}

fn print_counts(buf: &mut [u8], at: usize, c: Counts) -> usize
    requires { at + length (counts_text c) ≤ length buf.old }
    ensures { Appended buf.old at (counts_text c) buf.new result }
{
    let p = print_field(buf, at, c.available);
    let q = print_field(buf, p, c.stock);
    let r = print_field(buf, q, bit(c.closed));
    print_field(buf, r, c.queued)
}

fn print_answer(buf: &mut [u8], at: usize, a: Reply) -> usize
    requires { at + length (answer_text (answer_of a)) ≤ length buf.old }
    ensures { Appended buf.old at (answer_text (answer_of a)) buf.new result }
{
    match a {
        Reply::Done => text::put(buf, at, b"done"),
        Reply::Granted => text::put(buf, at, b"granted"),
        Reply::Pending => text::put(buf, at, b"pending"),
        Reply::Closed => text::put(buf, at, b"closed"),
        Reply::NoPermits => text::put(buf, at, b"none"),
        Reply::Made(x) => {
            let p = text::put(buf, at, b"s");
            print_small(buf, p, x.0)
        }
        Reply::Refused(n) => {
            let p = text::put(buf, at, b"r");
            print_small(buf, p, u8::from(n))
        }
    }
}

// Who took, by a grant's first word.
fn print_taker(buf: &mut [u8], at: usize, taker: u32) -> usize
    requires { at + length (taker_text (taker_of taker)) ≤ length buf.old }
    ensures { Appended buf.old at (taker_text (taker_of taker)) buf.new result }
{
    if taker < TRY {
        return text::print_number(buf, at, taker);
    }
    text::put(buf, at, b"t")
}

fn print_next(buf: &mut [u8], at: usize, taker: u32) -> usize
    requires { at + length (comma ∷ taker_text (taker_of taker)) ≤ length buf.old }
    ensures { Appended buf.old at (comma ∷ taker_text (taker_of taker)) buf.new result }
{
    let p = text::put(buf, at, b",");
    print_taker(buf, p, taker)
}

// The takers of n grants but the very first, a comma before each.
fn print_rest(buf: &mut [u8], at: usize, grants: &[u32], n: usize) -> usize
    requires { (0 < n) × (n ≤ slot_count) × (length grants.now ≡ slot_count * 3) × (at + length (rest_text (grants_of n grants.now)) ≤ length buf.old) }
    ensures { Appended buf.old at (rest_text (grants_of n grants.now)) buf.new result }
{
    let mut p = at;
    for i in 1..n {
        p = print_next(buf, p, grants[3 * i]);
    }
    p
}

// The takers of n grants, joined by commas.
fn print_takers(buf: &mut [u8], at: usize, grants: &[u32], n: usize) -> usize
    requires { (0 < n) × (n ≤ slot_count) × (length grants.now ≡ slot_count * 3) × (at + length (takers_text (grants_of n grants.now)) ≤ length buf.old) }
    ensures { Appended buf.old at (takers_text (grants_of n grants.now)) buf.new result }
{
    let p = print_taker(buf, at, grants[0]);
    print_rest(buf, p, grants, n)
}

fn print_grants(buf: &mut [u8], at: usize, grants: &[u32], n: usize) -> usize
    requires { (n ≤ slot_count) × (length grants.now ≡ slot_count * 3) × (at + length (grants_text (grants_of n grants.now)) ≤ length buf.old) }
    ensures { Appended buf.old at (grants_text (grants_of n grants.now)) buf.new result }
{
    if n == 0 {
        return text::put(buf, at, b"-");
    }
    print_takers(buf, at, grants, n)
}

// The whole line.
pub fn print_line(buf: &mut [u8], at: usize, a: Reply, c: Counts, grants: &[u32], n: usize) -> usize
    requires { (n ≤ slot_count) × (length grants.now ≡ slot_count * 3) × (at + length (line_text (answer_of a) c (grants_of n grants.now)) ≤ length buf.old) }
    ensures { Appended buf.old at (line_text (answer_of a) c (grants_of n grants.now)) buf.new result }
{
    let p = print_answer(buf, at, a);
    let q = text::put(buf, p, b" ");
    let r = print_counts(buf, q, c);
    let s = print_grants(buf, r, grants, n);
    text::put(buf, s, b"\n")
}

// Room for the digits of a byte, of any number, and for an answer: three bounds, which are three facts.
fn small_room(n: u8) -> usize
    ensures { (length (digits n) ≤ result) × (result ≤ 3) }
{
    3
}

fn number_room(n: u32) -> usize
    ensures { (length (digits n) ≤ result) × (result ≤ 10) }
{
    10
}

fn answer_room(a: Reply) -> usize
    ensures { (length (answer_text (answer_of a)) ≤ result) × (result ≤ 7) }
{
    match a {
        Reply::Done => 4,
        Reply::Granted => 7,
        Reply::Pending => 7,
        Reply::Closed => 6,
        Reply::NoPermits => 4,
        Reply::Made(x) => 1 + small_room(x.0),
        Reply::Refused(n) => 1 + small_room(u8::from(n)),
    }
}

// Room for a line with n grants, whoever takes: three bytes and a comma for each. For a caller that does not know how long its line is.
pub fn line_room(a: Reply, c: Counts, n: u8) -> usize
    ensures { (w : List ℕ) → length (line_text (answer_of a) c (grants_of n w)) ≤ result }
{
    let x = answer_room(a);
    let y = number_room(c.available);
    let z = number_room(c.stock);
    let q = number_room(c.queued);
    x + y + z + q + 4 * usize::from(n) + 8
}
