// The head's three numbers within the limits, and the records that are due by them.
ghost use Rattle.std.specs.Prelude.{◌≡◌, ◌+◌, ◌*◌, ◌^◌, ◌≤◌, ◌<◌, false};
ghost use Rattle.design.specs.Limits.{broken, greatest_share_bits, greatest_records, checked};
ghost use Rattle.design.specs.Reading.{last_of, number_of, kind_due, size_due};
ghost use Rattle.records.specs.Kinds.{code};

use super::GREATEST_TERMS;
use finite::power;
use reasons::Reason;
use records::{Kind, TERM_SIZE};

/// Bits, shares and stages of a design, none beyond the limits.
#[derive(Clone, Copy, Debug, PartialEq, Eq)]
pub struct Head {
    /// Bits of a share, 1 to 6; m × s is at most 20.
    pub m: usize,
    /// Shares, 3 to 5.
    pub s: usize,
    /// Stages, 1 to 4.
    pub k: usize,
    pub ghost limits: { broken m s k ≡ false },
}

impl Head {
    ghost use Rattle.design.specs.Heads.{numbers, head_outcome};

    /// The greatest m.
    pub const GREATEST_WIDTH: usize = anf::GREATEST_WIDTH;

    /// The least s.
    pub const LEAST_SHARES: usize = 3;

    /// The greatest s.
    pub const GREATEST_SHARES: usize = 5;

    /// The greatest m × s.
    pub const GREATEST_SHARE_BITS: usize = 20;

    /// The greatest k.
    pub const GREATEST_STAGES: usize = 4;

    /// How many bytes the body of its record has: m, s and k.
    pub const SIZE: usize = 3;

    /// The head of these numbers, if none breaks a limit.
    pub fn new(m: usize, s: usize, k: usize) -> Result<Self, Reason>
        ensures { head_outcome result ≡ checked m s k }
    {
        if m < 1 || Self::GREATEST_WIDTH < m {
            return Err(Reason::LimitBroken);
        }
        if s < Self::LEAST_SHARES || Self::GREATEST_SHARES < s {
            return Err(Reason::LimitBroken);
        }
        if Self::GREATEST_SHARE_BITS < m * s {
            return Err(Reason::LimitBroken);
        }
        if k < 1 || Self::GREATEST_STAGES < k {
            return Err(Reason::LimitBroken);
        }
        Ok(Head { m, s, k })
    }

    /// How many entries a table has.
    pub fn points(self) -> usize
        ensures { result ≡ 2 ^ self.m }
    {
        power(self.m)
    }

    /// How many bits a sharing has.
    pub fn share_bits(self) -> usize
        ensures value { result ≡ self.m * self.s }
        ensures most { result ≤ greatest_share_bits }
    {
        self.m * self.s
    }

    /// The number of the end record, which is how many come before it.
    pub fn last(self) -> usize
        ensures value { result ≡ last_of (numbers self) }
        ensures most { result < greatest_records }
    {
        2 + self.k * (1 + self.m * self.s)
    }

    /// The number of a record of stage `t`: its table at `l` 0, its lists from 1 on.
    pub fn number(self, t: usize, l: usize) -> usize
        requires stage { t < self.k }
        requires list { l ≤ self.m * self.s }
        ensures value { result ≡ number_of (numbers self) t l }
        ensures before_last { result < last_of (numbers self) }
        ensures most { result < greatest_records }
    {
        2 + t * (1 + self.m * self.s) + l
    }

    /// The kind due at record `i`.
    pub fn kind_due(self, i: usize) -> Kind
        ensures { code result ≡ kind_due (numbers self) i }
    {
        if i == 0 {
            return Kind::Head;
        }
        if i == 1 {
            return Kind::Table;
        }
        let end = self.last();
        if i == end {
            return Kind::End;
        }
        if (i - 2) % (1 + self.m * self.s) == 0 {
            return Kind::Table;
        }
        Kind::List
    }

    /// The length due of a kind; of a list the greatest.
    pub fn size_due(self, kind: Kind) -> usize
        ensures { result ≡ size_due (numbers self) (code kind) }
    {
        match kind {
            Kind::Head => Self::SIZE,
            Kind::Table => self.points(),
            Kind::List => TERM_SIZE * GREATEST_TERMS,
            Kind::End => 0,
        }
    }
}
