// Runs that no short script reaches: a task's record that is lent, first lines of more than 32,000 entries, and scripts of 65,536 and 65,537
// bytes.
ghost use Rattle.std.specs.Prelude.{◌≤◌};

use records::Task;
use std::io::Result;

fn say_task(rt: &impl Print, t: Task) -> Result<()> {
    if t.runnable() {
        print!(rt; " Runnable")?;
    } else {
        print!(rt; " not-Runnable")?;
    }
    if t.woken {
        print!(rt; "-woken")?;
    }
    Ok(())
}

// A record blocked and unblocked, and one that sleeps and is woken, where it stands.
fn say_altered(rt: &impl Print) -> Result<()> {
    print!(rt; "a record that is lent:")?;
    let halted = altering::halted(Task::none());
    say_task(rt, halted)?;
    say_task(rt, altering::freed(halted))?;
    let asleep = Task::none().sleep_unless_woken();
    say_task(rt, asleep)?;
    say_task(rt, altering::woke(asleep))?;
    println!(rt)
}

// What a script prints.
fn say_run(rt: &impl Print, script: &[u8]) -> Result<()> {
    let mut out = filling::room::<{ trace::OUTPUT }>();
    let k = trace::run(script, &mut out);
    rt.write_all(&out[..k])
}

// What a first line of 181 tasks prints with so many entries of their clocks, each a 0.
fn say_entries(rt: &impl Print, entries: usize) -> Result<()>
    requires { entries ≤ 32761 }
{
    let mut line = filling::room::<65536>();
    line.fill(b'0');
    text::put(&mut line, 0, b"S 1 - 181");
    for i in 0..entries {
        line[9 + 2 * i] = b' ';
    }
    line[9 + 2 * entries] = b'\n';
    print!(rt; "181 tasks, {entries} entries: ")?;
    say_run(rt, &line)
}

// A first line, and line feeds alone behind it.
fn feeds<const N: usize>() -> [u8; N]
    requires { 8 ≤ N }
{
    let mut script = [b'\n'; N];
    text::put(&mut script, 0, b"S 1 0 1\n");
    script
}

// How many bytes the longest script prints.
fn say_longest(rt: &impl Print) -> Result<()> {
    let script = feeds::<65536>();
    let mut out = filling::room::<{ trace::OUTPUT }>();
    let k = trace::run(&script, &mut out);
    println!(rt; "65536 bytes print: {k}")
}

// What one byte more prints.
fn say_too_long(rt: &impl Print) -> Result<()> {
    let script = feeds::<65537>();
    print!(rt; "65537 bytes print: ")?;
    say_run(rt, &script)
}

pub fn tell(rt: &impl Print) -> Result<()> {
    say_altered(rt)?;
    say_entries(rt, 32761)?;
    say_entries(rt, 32760)?;
    say_longest(rt)?;
    say_too_long(rt)
}
