// The bundle of some files.
ghost use Rattle.std.specs.Prelude.{◌≤◌, ◌<◌, length, IfOk, IfSome};
ghost use Rattle.filling.specs.Counts.{IsPrefixLen};

use super::BUNDLE;
use super::writing::{fail, put};
use bundle::Contents;
use bundle_rules::Refusal;
use std::fs::File;
use std::io::{self, Error, ErrorKind, Read};
use std::str;

// How many files the arguments name, or 257, which are too many.
fn files(rt: &HostRuntime) -> usize
    ensures { result ≤ 257 }
{
    filling::arg_count(rt, 259).saturating_sub(2)
}

// The file at a path; std opens paths of UTF-8 alone.
fn open(rt: &HostRuntime, path: &[u8]) -> io::Result<File> {
    match str::from_utf8(path) {
        Ok(name) => File::open(rt, name),
        Err(_) => Err(Error::new(ErrorKind::InvalidInput, "a path that is not UTF-8")),
    }
}

// The file at a path, into the buffer from a place on; the place after it. A file that gave no more bytes is asked once more: a read that
// failed `read_full` takes for the end.
fn read_file(rt: &HostRuntime, path: &[u8], bodies: &mut [u8], at: usize) -> io::Result<usize>
    requires { at ≤ length bodies.old }
    ensures { IfOk result (λ end. (at ≤ end) × (end ≤ length bodies.old)) }
{
    let mut file = open(rt, path)?;
    let end = at + filling::read_full(&mut file, &mut bodies[at..]);
    if end < bodies.len() {
        file.read(&mut [0u8; 1])?;
    }
    Ok(end)
}

// The file that argument 2 + i names: its name, its bytes and how many they are; the place after its bytes. A file that could not be read
// is told of.
fn gather_one(
    rt: &HostRuntime,
    i: usize,
    at: usize,
    bodies: &mut [u8; BUNDLE],
    names: &mut [u8; 4096],
    lengths: &mut [u32; 256],
) -> Option<usize>
    requires { (i < 256) × (at ≤ length bodies.old) }
    ensures { IfSome result (λ end. end ≤ length bodies.new) }
{
    let mut path = [0u8; 4096];
    let k = filling::arg(rt, i + 2, &mut path);
    let name = bundle_jobs::named(&path[..k]);
    text::put(names, bundle::NAME * i, &name);
    match read_file(rt, &path[..k], bodies, at) {
        Ok(end) => {
            lengths[i] = (end - at) as u32;
            Some(end)
        }
        Err(e) => {
            fail(rt, &path[..k], e);
            None
        }
    }
}

// The n files, and how far their bytes reach; of too many none is read.
fn gather(
    rt: &HostRuntime,
    n: usize,
    bodies: &mut [u8; BUNDLE],
    names: &mut [u8; 4096],
    lengths: &mut [u32; 256],
) -> Option<usize>
    ensures { IfSome result (λ end. IsPrefixLen end bodies.new) }
{
    let mut at = 0;
    if n <= 256 {
        for i in 0..n {
            at = gather_one(rt, i, at, bodies, names, lengths)?;
        }
    }
    Some(at)
}

fn say(rt: &HostRuntime, r: Result<usize, Refusal>, out: &[u8]) {
    match r {
        Ok(n) => {
            if n <= out.len() {
                put(rt, &out[..n]);
            }
        }
        Err(why) => {
            let _ = eprintln!(rt; "r{}", u8::from(why));
        }
    }
}

// The bundle of the files that the arguments name, or nothing, and why on standard error.
pub fn pack(rt: &HostRuntime) {
    let n = files(rt);
    let mut bodies = filling::room();
    let mut names = filling::room();
    let mut lengths = [0u32; 256];
    let Some(end) = gather(rt, n, &mut bodies, &mut names, &mut lengths) else {
        return;
    };
    let contents = Contents {
        count: n as u32,
        names,
        lengths,
    };
    let mut out = filling::room::<{ bundle::LONGEST }>();
    let r = bundle::write(contents, &bodies[..end], &mut out);
    say(rt, r, &out);
}
