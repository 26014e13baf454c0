// A script's bytes with a place in them: the line reader. Its methods are thin, and leave the work to functions on the bytes and the place.
#![tactic(auto)]

ghost use Rattle.std.specs.Prelude.{◌≡◌};
ghost use Rattle.text.specs.Reading.{NextIs};

use text::NextLine;

#[derive(Clone, Copy)]
pub struct Lines<'a> {
    pub src: &'a [u8],
    pub at: usize,
}

impl<'a> Lines<'a> {
    // The reader at a script's first line.
    pub fn new(src: &'a [u8]) -> Lines<'a>
        ensures { (result.src ≡ src.entry) × (result.at ≡ 0) }
    {
        Lines { src, at: 0 }
    }

    // The reader moved on to a place.
    pub fn moved(self, at: usize) -> Lines<'a>
        ensures { (result.src ≡ self.entry.src) × (result.at ≡ at) }
    {
        Lines { at, ..self }
    }

    // The line at the reader's place.
    pub fn next(self) -> NextLine
        ensures { NextIs self.entry.src.now self.entry.at result }
    {
        text::next_line(self.src, self.at)
    }
}

// The line at a place, by way of the reader.
pub fn line_at(s: &[u8], at: usize) -> NextLine
    ensures { NextIs s.now at result }
{
    Lines::new(s).moved(at).next()
}
