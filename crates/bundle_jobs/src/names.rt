// The name of a file in a bundle.
ghost use Rattle.std.specs.Prelude.{◌≡◌, ◌≤◌, length, drop};
ghost use Rattle.bundle_jobs.specs.Named.{last_part, name_for};

use super::NAME;

// Where the last part of a path begins. The loop goes from slash to slash by `find`: no place is counted by hand, and a `for` is no plainer.
fn last_part(path: &[u8]) -> usize
    ensures { (drop result path.now ≡ last_part path.now) × (result ≤ length path.now) }
{
    let mut at: usize = 0;
    let mut e = text::find(path, 0, b'/');
    while e < path.len() {
        at = e + 1;
        e = text::find(path, at, b'/');
    }
    at
}

// The name in a bundle of the file at a path: the path's last part. One that is too long is no name but zero bytes, which the writer refuses.
pub fn named(path: &[u8]) -> [u8; 16]
    ensures { result ≡ name_for path.now }
{
    let at = last_part(path);
    if NAME < path.len() - at {
        return [0u8; 16];
    }
    let mut name = [0u8; 16];
    text::put(&mut name, 0, &path[at..]);
    name
}
