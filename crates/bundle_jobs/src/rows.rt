// The rows of a bundle's contents, one after the other: listed, or their scripts run.
ghost use Rattle.std.specs.Prelude.{◌≡◌, ◌+◌, ◌*◌, ◌≤◌, length, take, drop};
ghost use Rattle.rules.specs.Script.{byte_room};
ghost use Rattle.text.specs.Writing.{Appended};
ghost use Rattle.bundle_rules.specs.Bundled.{longest};
ghost use Rattle.bundle.specs.Contents.{end_of, Lent};
ghost use Rattle.bundle_jobs.specs.Printed.{rows_text, room_for};
ghost use Rattle.bundle_jobs.specs.Placing.{rows_in, scripts_at};

use super::NAME;
use super::texts::{put_row, put_script};
use bundle::Contents;

// So many bytes from a place on.
fn part(s: &[u8], from: usize, size: usize) -> &[u8]
    requires { from + size ≤ length s.now }
    ensures { result.now ≡ take size (drop from s.now) }
{
    let e = from + size;
    &s[from..e]
}

// A line of the list for each script. It stays apart from `put_scripts`: offsets are of 32 bits here and places there, and each piece
// needs its own room, so that one function over the piece would have longer clauses than both.
pub fn put_rows(out: &mut [u8], contents: &Contents) -> usize
    requires { Lent contents.now.names contents.now.lengths contents.now.count longest × (byte_room * end_of contents.now.count contents.now.lengths ≤ length out.old) }
    ensures { Appended out.old 0 (rows_text (rows_in contents.now)) out.new result }
{
    let mut from = 4 + bundle::ROW_32 * contents.count;
    let mut at: usize = 0;
    for i in 0..contents.count as usize {
        let name = part(&contents.names, NAME * i, NAME);
        let size = contents.lengths[i];
        at = put_row(out, at, name, from, size);
        from += size;
    }
    at
}

// For each script its heading, and what it prints.
pub fn put_scripts(out: &mut [u8], bundle: &[u8], contents: &Contents) -> usize
    requires { Lent contents.now.names contents.now.lengths contents.now.count (length bundle.now) × (room_for bundle.now ≤ length out.old) }
    ensures { Appended out.old 0 (scripts_at bundle.now (rows_in contents.now)) out.new result }
{
    let n = contents.count as usize;
    let mut from = 4 + bundle::ROW * n;
    let mut at: usize = 0;
    for i in 0..n {
        let name = part(&contents.names, NAME * i, NAME);
        let size = contents.lengths[i] as usize;
        let body = part(bundle, from, size);
        at = put_script(out, at, name, body);
        from += size;
    }
    at
}
