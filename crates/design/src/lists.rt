// Lists of a stage that stand one behind the other in a file.
ghost use Rattle.std.specs.Prelude.{ℕ, ◌≡◌, ◌+◌, ◌≤◌, ◌<◌, [], length, get_or, take, drop};
ghost use Rattle.design.specs.Limits.{greatest_share_bits};
ghost use Rattle.design.specs.Inside.StageLists.{Stands};

use records::{RECORD_HEAD_SIZE, Terms};

/// Lists of a stage: where the body of each starts in the file, and where that of the record behind them does.
#[derive(Clone, Copy, Debug)]
pub struct Lists<'a> {
    /// The bytes of the file.
    pub file: &'a [u8],
    /// One more than there are lists: 1 to 21.
    pub starts: &'a [usize],
    pub ghost stands: { Stands file.now starts.now },
}

impl<'a> Lists<'a> {
    ghost use Rattle.records.specs.Inside.Terms.{bytes_of, terms_of};
    ghost use Rattle.design.specs.Inside.Lists.{lists_held, body_held};

    /// How many they are.
    pub fn len(&self) -> usize
        ensures value { result ≡ length (lists_held self.now) }
        ensures most { result ≤ greatest_share_bits }
    {
        self.starts.len() - 1
    }

    /// List `i`.
    pub fn list(&self, i: usize) -> Terms<'a>
        requires { i < length (lists_held self.now) }
        ensures bytes { bytes_of result ≡ body_held self.now i }
        ensures value { terms_of result ≡ get_or (lists_held self.now) i [] }
    {
        let body = &self.file[self.starts[i]..self.starts[i + 1] - RECORD_HEAD_SIZE];
        Terms::new(body)
    }

    /// The `n` lists from `from` on.
    pub fn part(&self, from: usize, n: usize) -> Lists<'a>
        requires { from + n ≤ length (lists_held self.now) }
        ensures value { lists_held result ≡ take n (drop from (lists_held self.now)) }
        ensures bytes { (i : ℕ) → i < n → body_held result i ≡ body_held self.now (from + i) }
    {
        Lists {
            file: self.file,
            starts: &self.starts[from..from + n + 1],
        }
    }
}
