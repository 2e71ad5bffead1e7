// A design file that reads: its tables and lists, as parts of it. Stages and lists are counted from 0.
ghost use Rattle.std.specs.Prelude.{ℕ, ◌≡◌, map, ◌*◌, ◌^◌, ◌<◌, length};
ghost use Rattle.records.specs.Bytes.{Bytes, term_bytes};
ghost use Rattle.std.specs.List.{concat};
ghost use Rattle.design.specs.WellFormed.{WellFormed};
ghost use Rattle.records.specs.Design.{stage_of, list_of};
ghost use Rattle.records.specs.Encode.{stage_bytes};
ghost use Rattle.design.specs.Reading.{means, reading};
ghost use Rattle.design.specs.Layout.{Describes};
ghost use Rattle.design.specs.Heads.{numbers, laid, design_by};

use super::{GREATEST_RECORDS, Head, Lists};
use records::record_size;

/// A file that reads as a design: its head, and where the body of each record starts, in fixed memory. A stage is named by its number, below k: a struct of
/// the file and that number would be no plainer, as each loop over stages would have to make one.
#[derive(Clone, Copy, Debug, PartialEq, Eq)]
pub struct DesignFile<'a> {
    /// The bytes of the file.
    pub file: &'a [u8],
    /// Its numbers m, s and k.
    pub head: Head,
    /// Where the body of each record starts, by its number. Nothing is asked of the numbers behind that of the end, where `read` answers 0.
    pub starts: [usize; GREATEST_RECORDS],
    pub ghost bytes: { Bytes file.now },
    pub ghost described: { Describes file.now (laid head starts) },
    pub ghost reads: { reading file.now ≡ means (design_by (numbers head) file.now) },
    pub ghost formed: { WellFormed (design_by (numbers head) file.now) },
}

impl<'a> DesignFile<'a> {
    ghost use Rattle.design.specs.Inside.Lists.{lists_held, body_held};
    ghost use Rattle.design.specs.Inside.Held.{design_of};

    /// The box S.
    pub fn box_table(&self) -> &'a [u8]
        ensures value { result.now ≡ (design_of self.now).box }
        ensures points { length result.now ≡ 2 ^ self.now.head.m }
    {
        let from = self.starts[1];
        &self.file[from..from + self.head.points()]
    }

    /// The table of stage `t`.
    pub fn table(&self, t: usize) -> &'a [u8]
        requires { t < self.now.head.k }
        ensures value { result.now ≡ (stage_of (design_of self.now) t).table }
        ensures points { length result.now ≡ 2 ^ self.now.head.m }
    {
        let from = self.starts[self.head.number(t, 0)];
        &self.file[from..from + self.head.points()]
    }

    /// The lists of stage `t`.
    pub fn lists(&self, t: usize) -> Lists<'_>
        requires { t < self.now.head.k }
        ensures value { lists_held result ≡ (stage_of (design_of self.now) t).lists }
        ensures share_bits { length (lists_held result) ≡ self.now.head.m * self.now.head.s }
        ensures bytes { (l : ℕ) → l < self.now.head.m * self.now.head.s
            → body_held result l ≡ term_bytes (list_of (design_of self.now) t l) }
    {
        let first = self.head.number(t, 1);
        Lists {
            file: self.file,
            starts: &self.starts[first..first + self.head.share_bits() + 1],
        }
    }

    /// The records of all stages, one behind the other: what stands between those of the head and the box and that of the end.
    pub fn stages(&self) -> &'a [u8]
        ensures { result.now ≡ concat (map stage_bytes (design_of self.now).stages) }
    {
        let from = record_size(Head::SIZE) + record_size(self.head.points());
        let end = self.file.len() - record_size(0);
        &self.file[from..end]
    }
}
