// The pieces of what is printed for a bundle, each written into a buffer from a place on.
ghost use Rattle.std.specs.Prelude.{◌++◌, ◌+◌, ◌≤◌, length};
ghost use Rattle.rules.specs.Script.{printed};
ghost use Rattle.text.specs.Writing.{Appended};
ghost use Rattle.trace.specs.Running.{room};
ghost use Rattle.bundle_jobs.specs.Printed.{name_text, refusal_text, heading_text, field_text, row_text};
ghost use Rattle.bundle_jobs.specs.Placing.{script_room};

use bundle_rules::Refusal;

// A name without the zero bytes behind it.
fn put_name(out: &mut [u8], at: usize, name: &[u8]) -> usize
    requires { at + length (name_text name.now) ≤ length out.old }
    ensures { Appended out.old at (name_text name.now) out.new result }
{
    let e = text::find(name, 0, 0);
    text::put(out, at, &name[..e])
}

// A refusal, at the buffer's start.
pub fn put_refusal(out: &mut [u8], why: Refusal) -> usize
    requires { length (refusal_text why) ≤ length out.old }
    ensures { Appended out.old 0 (refusal_text why) out.new result }
{
    let p = text::put(out, 0, b"r");
    let q = text::print_number(out, p, u32::from(u8::from(why)));
    text::put(out, q, b"\n")
}

fn put_heading(out: &mut [u8], at: usize, name: &[u8]) -> usize
    requires { at + length (heading_text name.now) ≤ length out.old }
    ensures { Appended out.old at (heading_text name.now) out.new result }
{
    let p = text::put(out, at, b"> ");
    let q = put_name(out, p, name);
    text::put(out, q, b"\n")
}

// A number behind a space.
fn put_field(out: &mut [u8], at: usize, n: u32) -> usize
    requires { at + length (field_text n) ≤ length out.old }
    ensures { Appended out.old at (field_text n) out.new result }
{
    let p = text::put(out, at, b" ");
    text::print_number(out, p, n)
}

// A line of the list.
pub fn put_row(out: &mut [u8], at: usize, name: &[u8], offset: u32, size: u32) -> usize
    requires { at + length (row_text (record { name = name.now; offset = offset; size = size })) ≤ length out.old }
    ensures { Appended out.old at (row_text (record { name = name.entry.now; offset = offset; size = size })) out.new result }
{
    let p = put_name(out, at, name);
    let q = put_field(out, p, offset);
    let t = put_field(out, q, size);
    text::put(out, t, b"\n")
}

// What the script in `body` prints.
fn put_run(out: &mut [u8], at: usize, body: &[u8]) -> usize
    requires { at + room body.now ≤ length out.old }
    ensures { Appended out.old at (printed body.now) out.new result }
{
    at + trace::run(body, &mut out[at..])
}

// A script's heading, and what it prints.
pub fn put_script(out: &mut [u8], at: usize, name: &[u8], body: &[u8]) -> usize
    requires { at + script_room name.now body.now ≤ length out.old }
    ensures { Appended out.old at (heading_text name.now ++ printed body.now) out.new result }
{
    let p = put_heading(out, at, name);
    put_run(out, p, body)
}
