// Bytes as fields, numbers and lines; and a lent buffer that is written on.
#![tactic(auto)]

ghost use Rattle.std.specs.Prelude.{◌≡◌, ◌+◌, ◌≤◌, length, drop};
ghost use Rattle.rules.specs.Text.{space, before, number_of, digits};
ghost use Rattle.text.specs.Reading.{Found, letter_of, number_from, ReadAt, NextIs};
ghost use Rattle.text.specs.Writing.{Appended};

// The number that the field at a place of a line says: of the line's last field, or with the place of the next field.
#[derive(Clone, Copy)]
pub enum Reading {
    Last(u32),
    Then(u32, usize),
}

// The line at a place of a script: where its line feed stands, or that it has none; or that the script ends there. No Option of the first two:
// who asks tells all three apart, and passes none on.
#[derive(Clone, Copy)]
pub enum NextLine {
    Ended(usize),
    Unended,
    End,
}

// The place of the first b at `from` or after it, or the end: what stands before it is a slice either way.
pub fn find(s: &[u8], from: usize, b: u8) -> usize
    requires { from ≤ length s.now }
    ensures { Found s.now from b result }
{
    let rest = &s[from..];
    from + rest.iter().position(|x| *x == b).unwrap_or(rest.len())
}

// The field that starts at a place of a line: a part of the lent line.
pub fn field(line: &[u8], at: usize) -> &[u8]
    requires { at ≤ length line.now }
    ensures { result.now ≡ before space (drop at line.now) }
{
    let e = find(line, at, b' ');
    &line[at..e]
}

// The byte of a field of one byte, or 0.
#[tactic(auto, using(crate::proofs::Letters::letters))]
pub fn letter(field: &[u8]) -> u8
    ensures { result ≡ letter_of field.now }
{
    match field {
        [b] => *b,
        _ => 0,
    }
}

fn digits_of(field: &[u8]) -> Option<u32>
    ensures { result ≡ number_from 0 field.now }
{
    let mut n: u32 = 0;
    for b in field {
        if !b.is_ascii_digit() {
            return None;
        }
        n = n.checked_mul(10)?.checked_add(u32::from(*b - b'0'))?;
    }
    Some(n)
}

// The number that a field says.
#[tactic(auto, using(crate::proofs::Numbers::leading_zeros))]
pub fn number_of(field: &[u8]) -> Option<u32>
    ensures { result ≡ number_of field.now }
{
    match field {
        [] | [b'0', _, ..] => None,
        // an arm of its own, though it is the last one's: so compiled, a number of one digit costs less to read
        [_] => digits_of(field),
        _ => digits_of(field),
    }
}

// The number in the field that starts at a place of a line, and where the next field starts.
pub fn number_at(line: &[u8], at: usize) -> Option<Reading>
    requires { at ≤ length line.now }
    ensures { ReadAt line.now at result }
{
    let f = field(line, at);
    let e = at + f.len();
    let n = number_of(f)?;
    Some(if e < line.len() {
        Reading::Then(n, e + 1)
    } else {
        Reading::Last(n)
    })
}

// The line that starts at a place of a script.
pub fn next_line(s: &[u8], at: usize) -> NextLine
    ensures { NextIs s.now at result }
{
    if s.len() <= at {
        return NextLine::End;
    }
    let e = find(s, at, b'\n');
    if e < s.len() {
        return NextLine::Ended(e);
    }
    NextLine::Unended
}

// Writes w into a buffer from a place on, and answers the place after it. Buffer and place go apart: a struct that borrows the buffer would add to
// every clause that the borrow is the same.
pub fn put(buf: &mut [u8], at: usize, w: &[u8]) -> usize
    requires { at + length w.now ≤ length buf.old }
    ensures { Appended buf.old at w.now buf.new result }
{
    let end = at + w.len();
    buf[at..end].copy_from_slice(w);
    end
}

// Writes the digits of n into a buffer from a place on, and answers the place after them.
pub fn print_number(buf: &mut [u8], at: usize, n: u32) -> usize
    requires { at + length (digits n) ≤ length buf.old }
    ensures { Appended buf.old at (digits n) buf.new result }
{
    if n < 10 {
        buf[at] = b'0' + n as u8;
        return at + 1;
    }
    let k = print_number(buf, at, n / 10);
    buf[k] = b'0' + (n % 10) as u8;
    k + 1
}
