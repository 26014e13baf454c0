// Runs that no short script reaches; then each script or bundle that the arguments name, comparing what it prints with the text that stands
// in the file behind it: what a bundle's list says, if that file's name ends so.
#![tactic(auto)]

ghost use Rattle.std.specs.Prelude.{◌≤◌};
ghost use Rattle.filling.specs.Counts.{IsPrefixLen};

use bundle_jobs::Job;
use std::fs::File;
use std::io::Result;
use std::str;

mod bundles;
mod trials;

// One byte more than a bundle may have.
const BUNDLE: usize = bundle::LONGEST + 1;

// The most that a script has here, and what it can print.
const SCRIPT: usize = 4096;

const TEXT: usize = trace::BYTE_ROOM * SCRIPT;

// The file of a name, if it can be opened.
fn open(rt: &HostRuntime, name: &[u8]) -> Option<File> {
    if let Ok(path) = str::from_utf8(name) {
        if let Ok(file) = File::open(rt, path) {
            return Some(file);
        }
    }
    let _ = print!(rt; "missing: ");
    None
}

// The file that an argument names.
fn read(rt: &HostRuntime, i: usize, buf: &mut [u8]) -> usize
    ensures { IsPrefixLen result buf.new }
{
    let mut name = [0u8; 4096];
    let k = filling::arg(rt, i, &mut name);
    match open(rt, &name[..k]) {
        Some(mut file) => filling::read_full(&mut file, buf),
        None => 0,
    }
}

// Writes an argument.
fn say(rt: &HostRuntime, i: usize) -> Result<()> {
    let mut name = [0u8; 4096];
    let k = filling::arg(rt, i, &mut name);
    rt.write_all(&name[..k])
}

fn judge(rt: &HostRuntime, text: &[u8], told: &[u8]) -> Result<()> {
    if check::same(text, told) {
        println!(rt; " prints what is told")
    } else {
        println!(rt; " PRINTS SOMETHING ELSE")
    }
}

// Whether an argument ends with a word.
fn ends(rt: &HostRuntime, i: usize, word: &[u8]) -> bool {
    let mut name = [0u8; 4096];
    let k = filling::arg(rt, i, &mut name);
    if k < word.len() {
        return false;
    }
    let a = k - word.len();
    check::same(&name[a..k], word)
}

// The script that argument i names, and the text that the next one names.
fn compare_script(rt: &HostRuntime, i: usize, next: usize) -> Result<()> {
    let mut script = filling::room::<SCRIPT>();
    let n = read(rt, i, &mut script);
    let mut text = filling::room::<TEXT>();
    let k = trace::run(&script[..n], &mut text);
    let mut told = filling::room::<TEXT>();
    let m = read(rt, next, &mut told);
    say(rt, i)?;
    judge(rt, &text[..k], &told[..m])
}

// The bundle that argument i names, run or listed, and the text that the next one names.
fn compare_bundle(rt: &HostRuntime, i: usize, next: usize, job: Job) -> Result<()> {
    let mut bundle = filling::room::<BUNDLE>();
    let n = read(rt, i, &mut bundle);
    let mut text = filling::room::<{ bundle_jobs::OUTPUT }>();
    let k = bundle_jobs::tell(job, &bundle[..n], 0, &mut text);
    let mut told = filling::room::<TEXT>();
    let m = read(rt, next, &mut told);
    say(rt, next)?;
    judge(rt, &text[..k], &told[..m])
}

fn compare(rt: &HostRuntime, i: usize, next: usize) -> Result<()> {
    if ends(rt, i, b".bundle") {
        let job = if ends(rt, next, b".list") {
            Job::List
        } else {
            Job::Run
        };
        return compare_bundle(rt, i, next, job);
    }
    compare_script(rt, i, next)
}

// How many arguments are looked at, the program's own name counted.
fn count(rt: &HostRuntime) -> usize
    ensures { result ≤ 1000 }
{
    filling::arg_count(rt, 1000)
}

fn main(rt: HostRuntime) -> Result<()> {
    trials::tell(&rt)?;
    bundles::tell(&rt)?;
    let pairs = count(&rt).saturating_sub(1) / 2;
    for pair in 0..pairs {
        compare(&rt, 2 * pair + 1, 2 * pair + 2)?;
    }
    Ok(())
}
