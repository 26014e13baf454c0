// The contracts of a bundle run, listed, and told by the job, with that function as the body: a place to try wrong answers as wrong code.
// Each edit in must-fail/ answers wrongly, and the contract rules it out.
#![tactic(auto)]

ghost use Rattle.bundle_jobs.specs.Printed.{run_text, list_text, text_for, PrintsFor};

use bundle_jobs::Job;

pub fn tell(job: Job, bundle: &[u8], more: u64, out: &mut [u8]) -> usize
    ensures { PrintsFor (text_for job) bundle.now more out.old out.new result }
{
    bundle_jobs::tell(job, bundle, more, out)
}

pub fn run(bundle: &[u8], more: u64, out: &mut [u8]) -> usize
    ensures { PrintsFor run_text bundle.now more out.old out.new result }
{
    bundle_jobs::run(bundle, more, out)
}

pub fn list(bundle: &[u8], more: u64, out: &mut [u8]) -> usize
    ensures { PrintsFor list_text bundle.now more out.old out.new result }
{
    bundle_jobs::list(bundle, more, out)
}
