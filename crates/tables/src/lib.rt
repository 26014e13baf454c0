// Flat tables in lent words: what a row and a table of them stand for, a row read and written, and the laws of both.
#![tactic(auto)]

ghost use Rattle.std.specs.Prelude.{◌≡◌, ◌*◌, ◌+◌, ◌≤◌, length};
ghost use Rattle.std.proofs.Math.Seq.{paste};
ghost use Rattle.tables.specs.Table.{row};

// A row of N entries, read.
pub fn row<const N: usize>(flat: &[u32], at: usize) -> [u32; N]
    requires { at * N + N ≤ length flat.now }
    ensures { result ≡ row N flat.now at }
{
    let base = at * N;
    let mut out = [0; N];
    out.copy_from_slice(&flat[base..base + N]);
    out
}

// A row of N entries, written over.
pub fn store<const N: usize>(flat: &mut [u32], at: usize, words: [u32; N])
    requires { at * N + N ≤ length flat.old }
    ensures { flat.new ≡ paste flat.old (at * N) words.entry N }
{
    let base = at * N;
    flat[base..base + N].copy_from_slice(&words);
}
