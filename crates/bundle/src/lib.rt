// Many scripts in one bundle: document 02, No. 1. First the contents (the count, and for each script its name, offset and length), then
// the bodies in that order with no gaps. What a bundle is stands in `bundle_rules`.
#![tactic(auto)]

mod names;
mod numbers;
mod reading;
mod writing;

pub use reading::{body, read, read_counted};
pub use writing::write;

// The most scripts, and the most bytes of a whole bundle.
pub const MOST: u32 = 256;

pub const LONGEST: usize = 65536;

// The bytes of a name, and of a row of the contents.
pub const NAME: usize = 16;

pub const ROW: usize = 24;

// The same where sums are made in 64 bits, and where they fit 32.
pub const ROW_64: u64 = ROW as u64;

pub const ROW_32: u32 = ROW as u32;

// How many scripts, their names one behind the other, and their lengths. Offsets follow from them. The count stands beside the arrays, as
// any may be handed in: `write` refuses one above 256 with 21.
#[derive(Clone, Copy)]
pub struct Contents {
    pub count: u32,
    pub names: [u8; 4096],
    pub lengths: [u32; 256],
}
