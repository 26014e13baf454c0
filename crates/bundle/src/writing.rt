// A bundle written into a lent buffer.
ghost use Rattle.std.specs.Prelude.{◌≡◌, ◌+◌, ◌*◌, ◌≤◌, length};
ghost use Rattle.std.specs.Result.{result_err};
ghost use Rattle.text.specs.Writing.{Appended};
ghost use Rattle.bundle_rules.specs.Bundled.{name_length, row_length, unmarked, most_scripts, longest, contents_length, row_bytes};
ghost use Rattle.bundle.specs.Contents.{Lent};
ghost use Rattle.bundle.specs.Writing.{LentWhole, RowsPut, BundlePut};
ghost use Rattle.bundle.specs.Writes.{ground_to_write, Writes};

use super::names::well_named;
use super::numbers::put_number;
use super::reading::sum;
use super::{Contents, LONGEST, MOST, NAME, ROW, ROW_32};
use bundle_rules::Refusal;

// A row of the contents.
fn put_row(out: &mut [u8], at: usize, name: &[u8], offset: u32, size: u32) -> usize
    requires { (length name.now ≡ name_length) × (at + row_length unmarked ≤ length out.old) }
    ensures { Appended out.old at (row_bytes (record { name = name.entry.now; offset = offset; size = size })) out.new result }
{
    let p = text::put(out, at, name);
    let q = put_number(out, p, offset);
    put_number(out, q, size)
}

// The rows of n scripts, behind the count. The offsets are below 65,536.
fn put_rows(out: &mut [u8], contents: &Contents) -> usize
    requires { Lent contents.now.names contents.now.lengths contents.now.count longest × (contents_length contents.now.count ≤ length out.old) }
    ensures { RowsPut out.old contents.now.names contents.now.lengths contents.now.count out.new result }
{
    let mut at: usize = 4;
    let mut offset: u32 = 4 + ROW_32 * contents.count;
    for i in 0..contents.count as usize {
        let a = NAME * i;
        let size = contents.lengths[i];
        at = put_row(out, at, &contents.names[a..a + NAME], offset, size);
        offset += size;
    }
    at
}

// Count, rows and bodies.
fn put_bundle(out: &mut [u8], contents: &Contents, bodies: &[u8]) -> usize
    requires { LentWhole contents.now.names contents.now.lengths contents.now.count bodies.now (length out.old) }
    ensures { BundlePut out.old contents.now.names contents.now.lengths contents.now.count bodies.now out.new result }
{
    put_number(out, 0, contents.count);
    let p = put_rows(out, contents);
    text::put(out, p, bodies)
}

// Why nothing is written, in the writer's order.
fn ground(contents: &Contents, bodies: &[u8], room: usize) -> Result<(), Refusal>
    ensures { result_err result ≡ ground_to_write contents.now bodies.now room }
{
    if MOST < contents.count {
        return Err(Refusal::TooMany);
    }
    let n = contents.count as usize;
    if !well_named(&contents.names, n) {
        return Err(Refusal::BadName);
    }
    let size = bodies.len();
    if sum(&contents.lengths, n) != size as u64 {
        return Err(Refusal::BadBodies);
    }
    let table = 4 + ROW * n;
    if LONGEST - table < size {
        return Err(Refusal::BadBodies);
    }
    if room < table + size {
        return Err(Refusal::CutShort);
    }
    Ok(())
}

// Writes a bundle into a buffer, or nothing: 21, 22, 23 and, where the buffer is too small, 20, in that order.
pub fn write(contents: Contents, bodies: &[u8], out: &mut [u8]) -> Result<usize, Refusal>
    ensures { Writes contents bodies.now out.old out.new result }
{
    ground(&contents, bodies, out.len())?;
    Ok(put_bundle(out, &contents, bodies))
}
