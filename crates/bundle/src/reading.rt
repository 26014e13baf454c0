// The contents of a bundle, taken out and judged; and a body where it stands.
ghost use Rattle.std.specs.Prelude.{◌≡◌, ◌&&◌, ◌+◌, ◌*◌, ◌≤◌, ◌<◌, leb, ltb, length, take, drop};
ghost use Rattle.bundle_rules.specs.Numbers.{number_length};
ghost use Rattle.bundle_rules.specs.Bundled.{name_length, most_scripts, longest, contents_length};
ghost use Rattle.bundle_rules.specs.Reading.{rows_of, names_of, sizes_of, in_order};
ghost use Rattle.bundle.specs.Contents.{stretches, sum_of, Sums, body_at};
ghost use Rattle.bundle.specs.Reads.{Enough, Whole, Judges, Reads, ReadsCounted};

use super::names::well_named;
use super::numbers::number_at;
use super::{Contents, LONGEST, MOST, NAME, ROW, ROW_64};
use bundle_rules::Refusal;

// The names of n rows, one behind the other.
fn read_names(s: &[u8], n: usize, names: &mut [u8; 4096])
    requires { (n ≤ most_scripts) × (contents_length n ≤ length s.now) }
    ensures { stretches name_length n names.new ≡ names_of (rows_of n (drop number_length s.now)) }
{
    for i in 0..n {
        let at = 4 + ROW * i;
        text::put(names, NAME * i, &s[at..at + NAME]);
    }
}

// The lengths of n rows.
fn read_lengths(s: &[u8], n: usize, lengths: &mut [u32; 256])
    requires { (n ≤ most_scripts) × (contents_length n ≤ length s.now) }
    ensures { take n lengths.new ≡ sizes_of (rows_of n (drop number_length s.now)) }
{
    for i in 0..n {
        let at = 4 + ROW * i;
        lengths[i] = number_at(s, at + 20);
    }
}

// Whether the bodies stand one behind the other, from the end of the contents to that of the bundle. The sums are made in 64 bits.
fn in_order(s: &[u8], n: usize) -> bool
    requires { (n ≤ most_scripts) × (contents_length n ≤ length s.now) }
    ensures { result ≡ in_order (contents_length n) (rows_of n (drop number_length s.now)) (length s.now) }
{
    let mut end: u64 = 4 + ROW_64 * n as u64;
    for i in 0..n {
        let at = 4 + ROW * i;
        if u64::from(number_at(s, at + 16)) != end {
            return false;
        }
        end += u64::from(number_at(s, at + 20));
    }
    end == s.len() as u64
}

// Whether fewer bytes stand there, those kept and more behind them, than the contents of n scripts have. The product is made in 64 bits.
fn is_cut(kept: usize, more: u64, n: u32) -> bool
    ensures { result ≡ ltb (kept + more) (contents_length n) }
{
    let table = 4 + ROW_64 * u64::from(n);
    (kept as u64).saturating_add(more) < table
}

// Whether the bodies are in order, and the whole is not too long.
fn well_placed(s: &[u8], n: usize, more: u64) -> bool
    requires { Whole s.now n more }
    ensures { result ≡ in_order (contents_length n) (rows_of n (drop number_length s.now)) (length s.now + more) && leb (length s.now + more) longest }
{
    more == 0 && s.len() <= LONGEST && in_order(s, n)
}

// What is said of a bundle with a whole table of n rows.
fn judged(s: &[u8], n: usize, more: u64) -> Result<Contents, Refusal>
    requires { Whole s.now n more }
    ensures { Judges s.now more result }
{
    let mut names = [0u8; 4096];
    read_names(s, n, &mut names);
    if !well_named(&names, n) {
        return Err(Refusal::BadName);
    }
    if !well_placed(s, n, more) {
        return Err(Refusal::BadBodies);
    }
    let mut lengths = [0u32; 256];
    read_lengths(s, n, &mut lengths);
    Ok(Contents {
        count: n as u32,
        names,
        lengths,
    })
}

// The first ground of a bundle that begins with these bytes and has so many more, or its contents.
fn read_kept(s: &[u8], more: u64) -> Result<Contents, Refusal>
    requires { Enough s.now more }
    ensures { Judges s.now more result }
{
    if s.len() < 4 {
        return Err(Refusal::CutShort);
    }
    let n = number_at(s, 0);
    if is_cut(s.len(), more, n) {
        return Err(Refusal::CutShort);
    }
    if MOST < n {
        return Err(Refusal::TooMany);
    }
    judged(s, n as usize, more)
}

// The scripts of a bundle, or why it is refused: 20, 21, 22, 23 in that order.
pub fn read(bundle: &[u8]) -> Result<Contents, Refusal>
    ensures { Reads bundle.now result }
{
    read_kept(bundle, 0)
}

// The same of a bundle of which only the first bytes are kept, and so many more stand behind them. Where there are more, and fewer than
// 65,536 are kept, it is 20.
pub fn read_counted(kept: &[u8], more: u64) -> Result<Contents, Refusal>
    ensures { ReadsCounted kept.now more result }
{
    if more == 0 {
        return read(kept);
    }
    if kept.len() < LONGEST {
        return Err(Refusal::CutShort);
    }
    read_kept(kept, more)
}

// The lengths of the first n scripts, added up.
pub fn sum(lengths: &[u32; 256], n: usize) -> u64
    requires { n ≤ most_scripts }
    ensures { Sums lengths.now n result }
{
    let mut total: u64 = 0;
    for size in &lengths[..n] {
        total += u64::from(*size);
    }
    total
}

// Where the body of script i of n stands: behind the contents and the bodies before it.
fn start_of(lengths: &[u32; 256], n: usize, i: usize) -> usize
    requires { (n ≤ most_scripts) × (i < n) }
    ensures { (result ≡ contents_length n + sum_of (take i lengths.now)) × (result ≤ contents_length n + 4294967296 * i) }
{
    4 + ROW * n + sum(lengths, i) as usize
}

// The body of script i: a part of the bundle that the contents were read from, and nothing if there is no such script.
pub fn body(bundle: &[u8], contents: Contents, i: usize) -> &[u8]
    ensures { result.now ≡ body_at contents bundle.now i }
{
    if MOST < contents.count {
        return &bundle[..0];
    }
    let n = contents.count as usize;
    if n <= i {
        return &bundle[..0];
    }
    let start = start_of(&contents.lengths, n, i);
    let end = start + contents.lengths[i] as usize;
    if bundle.len() < end {
        return &bundle[..0];
    }
    &bundle[start..end]
}
