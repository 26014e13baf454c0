// Bundles as a caller of the library has them: written again, a body cut out, and judged by more bytes than are kept.
use super::BUNDLE;
use bundle_rules::Refusal;
use std::io;

// A bundle of two scripts: `k1`, of 14 bytes, and `empty`, of none.
fn two() -> [u8; 66] {
    let mut s = [0u8; 66];
    text::put(
        &mut s,
        0,
        b"\x02\0\0\0k1\0\0\0\0\0\0\0\0\0\0\0\0\0\0\x34\0\0\0\x0e\0\0\0empty\0\0\0\0\0\0\0\0\0\0\0\x42\0\0\0\0\0\0\0S 0 0 2\nT 0 1\n",
    );
    s
}

fn say_refusal(rt: &impl Print, why: Refusal) -> io::Result<()> {
    print!(rt; "r{}", u8::from(why))
}

// That bundle read, and written again into a buffer.
fn write_again(out: &mut [u8]) -> Result<usize, Refusal> {
    let whole = two();
    let contents = bundle::read(&whole)?;
    bundle::write(contents, &whole[52..], out)
}

fn say_written(rt: &impl Print, w: Result<usize, Refusal>) -> io::Result<()> {
    match w {
        Ok(n) => print!(rt; "{n}"),
        Err(why) => say_refusal(rt, why),
    }
}

fn say_room(rt: &impl Print) -> io::Result<()> {
    print!(rt; "66 bytes written again into 66: ")?;
    let mut out = [0u8; 66];
    say_written(rt, write_again(&mut out))?;
    if check::same(&out, &two()) {
        println!(rt; ", the same")
    } else {
        println!(rt; ", NOT THE SAME")
    }
}

fn say_no_room(rt: &impl Print) -> io::Result<()> {
    print!(rt; "66 bytes written again into 65: ")?;
    let mut out = [0u8; 65];
    say_written(rt, write_again(&mut out))?;
    println!(rt)
}

fn say_body(rt: &impl Print) -> io::Result<()> {
    let whole = two();
    match bundle::read(&whole) {
        Err(why) => say_refusal(rt, why),
        Ok(contents) => {
            let body = bundle::body(&whole, contents, 0);
            let n = body.len();
            println!(rt; "the first body, {n} bytes:")?;
            rt.write_all(body)
        }
    }
}

// The first bytes of a bundle whose count is 2,916: its table has 69,988 bytes.
fn kept() -> [u8; BUNDLE] {
    let mut s = [0u8; BUNDLE];
    s[0] = 100;
    s[1] = 11;
    s
}

fn say_counted(rt: &impl Print, more: u64) -> io::Result<()> {
    let s = kept();
    match bundle::read_counted(&s, more) {
        Ok(_) => print!(rt; "good")?,
        Err(why) => say_refusal(rt, why)?,
    }
    println!(rt)
}

pub fn tell(rt: &impl Print) -> io::Result<()> {
    say_room(rt)?;
    say_no_room(rt)?;
    say_body(rt)?;
    print!(rt; "a count of 2916 in 70000 bytes: ")?;
    say_counted(rt, 4463)?;
    print!(rt; "a count of 2916 in 65537 bytes: ")?;
    say_counted(rt, 0)
}
