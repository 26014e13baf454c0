// The contract of each public function that reads, writes or names in a bundle, with that function as its body: a place to try wrong
// answers as wrong code. Each edit in must-fail/ answers wrongly, and the contract rules it out.
#![tactic(auto)]

ghost use Rattle.std.specs.Prelude.{◌≡◌};
ghost use Rattle.bundle.specs.Contents.{body_at};
ghost use Rattle.bundle.specs.Reads.{Reads, ReadsCounted};
ghost use Rattle.bundle.specs.Writes.{Writes};
ghost use Rattle.bundle_jobs.specs.Named.{name_for};

use bundle::Contents;
use bundle_rules::Refusal;

pub fn read(bundle: &[u8]) -> Result<Contents, Refusal>
    ensures { Reads bundle.now result }
{
    bundle::read(bundle)
}

pub fn read_counted(kept: &[u8], more: u64) -> Result<Contents, Refusal>
    ensures { ReadsCounted kept.now more result }
{
    bundle::read_counted(kept, more)
}

pub fn body(bundle: &[u8], contents: Contents, i: usize) -> &[u8]
    ensures { result.now ≡ body_at contents bundle.now i }
{
    bundle::body(bundle, contents, i)
}

pub fn write(contents: Contents, bodies: &[u8], out: &mut [u8]) -> Result<usize, Refusal>
    ensures { Writes contents bodies.now out.old out.new result }
{
    bundle::write(contents, bodies, out)
}

pub fn named(path: &[u8]) -> [u8; 16]
    ensures { result ≡ name_for path.now }
{
    bundle_jobs::named(path)
}
