// Numbers of four bytes, lowest byte first.
ghost use Rattle.std.specs.Prelude.{◌+◌, ◌≤◌, length};
ghost use Rattle.text.specs.Writing.{Appended};
ghost use Rattle.bundle_rules.specs.Numbers.{bytes_of, number_length, NumberAt};

// The number at a place.
pub fn number_at(s: &[u8], at: usize) -> u32
    requires { at + number_length ≤ length s.now }
    ensures { NumberAt s.now at result }
{
    u32::from_le_bytes([s[at], s[at + 1], s[at + 2], s[at + 3]])
}

// Writes a number at a place, and answers the place after it.
pub fn put_number(out: &mut [u8], at: usize, n: u32) -> usize
    requires { at + number_length ≤ length out.old }
    ensures { Appended out.old at (bytes_of number_length n) out.new result }
{
    text::put(out, at, &n.to_le_bytes())
}
