// Producing: the file of the direct sharing of a box.
#![tactic(auto)]

mod file; // file.rt: the file's length, and writing it

ghost use Rattle.std.specs.Prelude.{◌≡◌, length};
ghost use Rattle.records.specs.Writing.{produced_of};
ghost use Rattle.producer.specs.Producing.{producing, output_after};

use anf::{repeats, transform, words_degree};
use design::{GREATEST_POINTS, Head};
use direct::Rule;
pub use direct::published_placement;
use file::DirectFile;
use reasons::Reason;
use records::Writer;

// The direct sharing for a head, whose number of stages is not looked at, with the words in fixed memory. The file is known to fit before a byte is written.
fn produce_for(
    head: Head,
    table: &[u8],
    placement: &[u8],
    output: &mut [u8],
) -> Result<usize, Reason>
    ensures value { produced_of result ≡ producing head.m head.s table.now placement.now (length output.old) }
    ensures output_after { output.new ≡ output_after head.m head.s table.now placement.now output.old }
{
    let mut words = [0u8; GREATEST_POINTS];
    transform(head.m, table, &mut words)?;
    if repeats(table) {
        return Err(Reason::BoxRepeats);
    }
    let degree = words_degree(&words[..head.points()]);
    let rule = Rule::new(head, placement)?;
    if head.s <= degree {
        return Err(Reason::DegreeTooHigh);
    }
    let file = DirectFile {
        rule,
        table,
        words: &words,
    };
    let size = file.size();
    if output.len() < size {
        return Err(Reason::OutputTooShort);
    }
    file.put(&mut Writer::new(output));
    Ok(size)
}

/// Writes the direct sharing of a permutation table of 2^m entries of m bits, with s shares, by a placement, as a design file, and answers its length. By m, s,
/// a table, a placement and an output, as C hands them over.
pub fn produce(
    m: usize,
    s: usize,
    table: &[u8],
    placement: &[u8],
    output: &mut [u8],
) -> Result<usize, Reason>
    ensures value { produced_of result ≡ producing m s table.now placement.now (length output.old) }
    ensures output_after { output.new ≡ output_after m s table.now placement.now output.old }
{
    let head = Head::new(m, s, 1)?;
    produce_for(head, table, placement, output)
}
