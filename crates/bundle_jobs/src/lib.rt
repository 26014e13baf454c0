// What `semtrace` does with bundles: their scripts run, their contents listed, and a file's name in one.
#![tactic(auto)]

ghost use Rattle.bundle_jobs.specs.Printed.{run_text, list_text, text_for, PrintsFor};

mod names;
mod rows;
mod texts;

pub use names::named;

// Room in the buffer for all that is read of a bundle, one byte more than the longest has.
pub const OUTPUT: usize = trace::BYTE_ROOM * (trace::INPUT + 1);

const NAME: usize = bundle::NAME;

// What is done with a bundle.
#[derive(Clone, Copy)]
pub enum Job {
    Run,
    List,
}

// Runs or lists a bundle. A refused one prints `r` and its number. `more` bytes stand behind those that are handed in. Answers how many
// bytes it wrote; with less room than `BYTE_ROOM` bytes for each byte handed in, and for one more, it writes nothing.
pub fn tell(job: Job, bundle: &[u8], more: u64, out: &mut [u8]) -> usize
    ensures { PrintsFor (text_for job) bundle.now more out.old out.new result }
{
    if out.len() / trace::BYTE_ROOM <= bundle.len() {
        return 0;
    }
    match bundle::read_counted(bundle, more) {
        Err(why) => texts::put_refusal(out, why),
        Ok(contents) => match job {
            Job::Run => rows::put_scripts(out, bundle, &contents),
            Job::List => rows::put_rows(out, &contents),
        },
    }
}

// Runs each script of a bundle in order: a line `> NAME`, and what `semtrace` prints for it.
pub fn run(bundle: &[u8], more: u64, out: &mut [u8]) -> usize
    ensures { PrintsFor run_text bundle.now more out.old out.new result }
{
    tell(Job::Run, bundle, more, out)
}

// Lists the scripts of a bundle: a line with name, offset and length for each.
pub fn list(bundle: &[u8], more: u64, out: &mut [u8]) -> usize
    ensures { PrintsFor list_text bundle.now more out.old out.new result }
{
    tell(Job::List, bundle, more, out)
}
