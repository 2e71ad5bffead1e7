// Normal form: the transform between a table and its coefficients, and what tables are tested for.
#![tactic(auto)]

pub mod words; // words.rt: the sums over subsets of words of any width

ghost use Rattle.std.specs.Prelude.{◌≡◌, ◌++◌, ◌^◌, ◌≤◌, length, drop};
ghost use Rattle.reasons.specs.Numbers.{reason_of};
ghost use Rattle.finite.specs.Maps.{repeats};
ghost use Rattle.anf.specs.Tables.{entries_below, entry};
ghost use Rattle.anf.specs.Terms.{before};
ghost use Rattle.anf.specs.Inside.Words.{words_degree};
ghost use Rattle.anf.specs.Transform.{greatest_width, transform_reason, transform_after, transformed};

use finite::{copy, power};
use reasons::Reason;
use std::cmp::max;
use words::sum_subsets;

/// The greatest width of a table.
pub const GREATEST_WIDTH: usize = 6;

/// Whether the term `a` stands before the term `b` in a list: the one function for the order of terms.
#[tactic(auto, unfolding(crate::specs::Terms::before))]
pub fn stands_before(a: u32, b: u32) -> bool
    ensures { result ≡ before a b }
{
    a < b
}

/// Whether every entry is below the bound.
pub fn entries_below(table: &[u8], bound: usize) -> bool
    ensures { result ≡ entries_below table.now bound }
{
    table.iter().all(|&entry| usize::from(entry) < bound)
}

/// Whether some two entries are equal.
pub fn repeats(table: &[u8]) -> bool
    ensures { result ≡ repeats (length table.now) (entry table.now) }
{
    table
        .iter()
        .enumerate()
        .any(|(i, entry)| table[..i].contains(entry))
}

/// The degree that coefficient words give.
pub fn words_degree(words: &[u8]) -> usize
    requires { length words.now ≤ 2 ^ 32 }
    ensures { result ≡ words_degree words.now }
{
    let mut degree = 0;
    for (u, &word) in words.iter().enumerate() {
        if word != 0 {
            degree = max(degree, (u as u32).count_ones());
        }
    }
    degree as usize
}

// Writes the sums over subsets of the input over the front of the output. By m, as `sum_subsets` goes by it.
fn write_sums(m: usize, input: &[u8], output: &mut [u8])
    requires width { m ≤ greatest_width }
    requires entries { length input.now ≡ 2 ^ m }
    requires room { 2 ^ m ≤ length output.old }
    ensures { output.new ≡ transformed m input.now ++ drop (2 ^ m) output.old }
{
    let front = &mut output[..input.len()];
    copy(input, front);
    sum_subsets(m, front);
}

/// The coefficient words of a table of 2^m entries, or the table of 2^m coefficient words: the sums over subsets are both. By m and a slice, as C hands them
/// over.
pub fn transform(m: usize, input: &[u8], output: &mut [u8]) -> Result<(), Reason>
    ensures value { reason_of result ≡ transform_reason m input.now (length output.old) }
    ensures output_after { output.new ≡ transform_after m input.now output.old }
{
    if m < 1 || GREATEST_WIDTH < m {
        return Err(Reason::LimitBroken);
    }
    let n = power(m);
    if input.len() != n {
        return Err(Reason::WrongLength);
    }
    if !entries_below(input, n) {
        return Err(Reason::EntryTooLarge);
    }
    if output.len() < n {
        return Err(Reason::OutputTooShort);
    }
    write_sums(m, input, output);
    Ok(())
}
