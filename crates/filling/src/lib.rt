// Buffers of a fixed size that a program has filled: with what a reader gives, or with an argument.
#![tactic(auto)]

ghost use Rattle.std.specs.Prelude.{◌≡◌, ◌≤◌, replicate};
ghost use Rattle.filling.specs.Counts.{IsPrefixLen};

use std::env::FillError;
use std::io::Read;
use std::rt::Env;

// An empty buffer: zeros. Programs make their longest by it, since a check that sees a long literal of zeros writes it out.
pub fn room<const N: usize>() -> [u8; N]
    ensures { result ≡ replicate N 0 }
{
    [0u8; N]
}

// Reads until the buffer is full, the input ends or a read fails; answers how many bytes it put at the buffer's start. No `for`: the reader
// says how far each turn goes.
pub fn read_full<R: Read>(reader: &mut R, buf: &mut [u8]) -> usize
    ensures { IsPrefixLen result buf.new }
{
    let mut done = 0;
    while done < buf.len() {
        let n = reader.read(&mut buf[done..]).unwrap_or(0);
        if n == 0 {
            break;
        }
        done += n;
    }
    done
}

// Puts an argument at the buffer's start, and answers its length: 0 where there is none, or where it is longer than the buffer. No Option: the
// programs do the same with none and with an empty one.
pub fn arg(rt: &impl Env, i: usize, buf: &mut [u8]) -> usize
    ensures { IsPrefixLen result buf.new }
{
    rt.arg(i, buf).unwrap_or(0)
}

// Whether there is an argument of that number, however long it is.
fn is_arg(rt: &impl Env, i: usize) -> bool {
    let mut probe = [0u8; 1];
    !matches!(rt.arg(i, &mut probe), Err(FillError::NotPresent))
}

// How many arguments there are, the program's own name counted; no more than `most` are counted.
pub fn arg_count(rt: &impl Env, most: usize) -> usize
    ensures { result ≤ most }
{
    for i in 0..most {
        if !is_arg(rt, i) {
            return i;
        }
    }
    most
}
