// The design file: the head and its limits, reading, and what a file that reads holds; and a list of terms that grows.
#![tactic(auto)]

ghost use Rattle.std.specs.Prelude.{◌≡◌, ◌^◌, ◌≤◌};
ghost use Rattle.design.specs.Limits.{greatest_share_bits};

mod errors; // errors.rt: why a file does not read
mod files; // files.rt: a file that reads, its tables and lists
mod heads; // heads.rt: the head within the limits, and the records that are due
mod lists; // lists.rt: lists of a stage
mod reader; // reader.rt: the tests of each record, and the walk over all
mod term_list; // term_list.rt: a list of terms that grows, in fixed memory

pub use errors::{Fault, ReadError};
pub use files::DesignFile;
use finite::power;
pub use heads::Head;
pub use lists::Lists;
pub use reader::{read, read_head};
pub use term_list::TermList;

/// The greatest number of entries of a table.
pub const GREATEST_POINTS: usize = 1 << Head::GREATEST_WIDTH;

/// The greatest number of terms of a list.
pub const GREATEST_TERMS: usize = 4096;

/// The greatest number of records of a file: the head, the box, a table and a list for each share bit in each stage, the end.
pub const GREATEST_RECORDS: usize = 3 + Head::GREATEST_STAGES * (1 + Head::GREATEST_SHARE_BITS);

/// 2 to the power of a number of share bits, in 32 bits: so many sharings there are, and so many terms of them.
pub fn two_to(bits: usize) -> u32
    requires { bits ≤ greatest_share_bits }
    ensures { result ≡ 2 ^ bits }
{
    power(bits) as u32
}
