// Prints the whole state after each line, as `oracle --state` does: of the script on standard input, or of many. Before each of many stand
// the two bytes of its length, the high one first, and behind what is printed for it a line `end`.
ghost use Rattle.std.specs.Prelude.{◌<◌, IfSome};

use crate::bytes::part;
use crate::walk;
use std::io::{Input, Result};

// Scripts above this are not read.
const MOST: usize = 65536;

pub fn run_one(rt: &(impl Input + Print)) -> Result<()> {
    let mut script = [0u8; MOST + 1];
    let n = filling::read_full(&mut rt.reader(), &mut script);
    if MOST < n {
        return rt.write_all(b"long\n");
    }
    walk::print(rt, part(&script, 0, n))
}

// How many bytes the next script has, if there is one.
fn read_length(rt: &impl Input) -> Option<usize>
    ensures { IfSome result (λ n. n < 65536) }
{
    let mut head = [0u8; 2];
    if filling::read_full(&mut rt.reader(), &mut head) < 2 {
        return None;
    }
    Some(u16::from_be_bytes(head) as usize)
}

// The next script is read, if there is one; how many bytes it has.
fn read_next(rt: &impl Input, script: &mut [u8; MOST - 1]) -> Option<usize> {
    let n = read_length(rt)?;
    filling::read_full(&mut rt.reader(), &mut script[..n]);
    Some(n)
}

// Whether there was a script.
fn run_next(rt: &(impl Input + Print)) -> Result<bool> {
    let mut script = [0u8; MOST - 1];
    let Some(n) = read_next(rt, &mut script) else {
        return Ok(false);
    };
    walk::print(rt, part(&script, 0, n))?;
    rt.write_all(b"end\n")?;
    Ok(true)
}

// A run of scripts ends, even where the input does not.
pub fn run_many(rt: &(impl Input + Print)) -> Result<()> {
    for _ in 0..u32::MAX {
        if !run_next(rt)? {
            break;
        }
    }
    Ok(())
}
