// Names of 16 bytes, padded with zero bytes.
ghost use Rattle.std.specs.Prelude.{◌≡◌, ◌*◌, ◌≤◌, length};
ghost use Rattle.bundle_rules.specs.Bundled.{name_length, zeros, well_made, well_named};
ghost use Rattle.bundle.specs.Contents.{stretches};

use super::NAME;

fn all_zero(s: &[u8]) -> bool
    ensures { result ≡ zeros s.now }
{
    s.iter().all(|b| *b == 0)
}

fn well_made(name: &[u8]) -> bool
    ensures { result ≡ well_made name.now }
{
    let e = text::find(name, 0, 0);
    e != 0 && all_zero(&name[e..])
}

// Each of the first n names.
pub fn well_named(names: &[u8], n: usize) -> bool
    requires { name_length * n ≤ length names.now }
    ensures { result ≡ well_named (stretches name_length n names.now) }
{
    for i in 0..n {
        let at = NAME * i;
        if !well_made(&names[at..at + NAME]) {
            return false;
        }
    }
    true
}
