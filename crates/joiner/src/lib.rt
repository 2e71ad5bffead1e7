// Designs made of designs: two joined into one.
#![tactic(auto)]

mod file; // file.rt: the file, written

ghost use Rattle.std.specs.Prelude.{◌≡◌, length};
ghost use Rattle.records.specs.Writing.{produced_of};
ghost use Rattle.design.specs.Inside.Held.{design_of};
ghost use Rattle.joiner.specs.Joining.{joining, joined_after};
ghost use Rattle.joiner.specs.Inside.Designs.{designs_joining, designs_joined_after};

use design::{DesignFile, Head};
use file::put;
use reasons::Reason;
use records::Writer;

// Joins two designs. The file is as long as the first with the stages of the second, and known to fit before a byte is written.
fn join_designs(a: &DesignFile<'_>, b: &DesignFile<'_>, output: &mut [u8]) -> Result<usize, Reason>
    ensures value { produced_of result ≡ designs_joining (design_of a.now) (design_of b.now) (length output.old) }
    ensures output_after { output.new ≡ designs_joined_after (design_of a.now) (design_of b.now) output.old }
{
    if a.head.m != b.head.m || a.head.s != b.head.s {
        return Err(Reason::SharesDiffer);
    }
    if Head::GREATEST_STAGES < a.head.k + b.head.k {
        return Err(Reason::TooManyStages);
    }
    let length = a.file.len() + b.stages().len();
    if output.len() < length {
        return Err(Reason::OutputTooShort);
    }
    put(a, b, &mut Writer::new(output));
    Ok(length)
}

/// Joins two design files into one: S of the second after S of the first, the stages in that order.
pub fn join(first: &[u8], second: &[u8], output: &mut [u8]) -> Result<usize, Reason>
    ensures value { produced_of result ≡ joining first.now second.now (length output.old) }
    ensures output_after { output.new ≡ joined_after first.now second.now output.old }
{
    let a = design::read(first)?;
    let b = design::read(second)?;
    join_designs(&a, &b, output)
}
