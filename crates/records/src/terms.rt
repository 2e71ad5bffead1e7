// Lists of terms as they stand in a file, four bytes each.
ghost use Rattle.std.specs.Prelude.{◌≡◌};
ghost use Rattle.records.specs.Inside.Terms.{terms, bytes_of, terms_of, left};

use super::TERM_SIZE;

/// A list of terms as it stands in a file.
#[derive(Clone, Copy, Debug, PartialEq, Eq)]
pub struct Terms<'a> {
    bytes: &'a [u8],
}

impl<'a> Terms<'a> {
    /// The list that these bytes are.
    pub fn new(bytes: &'a [u8]) -> Terms<'a>
        ensures value { terms_of result ≡ terms bytes.now }
        ensures bytes { bytes_of result ≡ bytes.now }
    {
        Terms { bytes }
    }

    /// Goes over its terms, from the first on.
    pub fn iter(&self) -> TermsIter<'a>
        ensures { left result ≡ terms_of self.now }
    {
        TermsIter { rest: self.bytes }
    }
}

/// The terms of a list that are left to go over.
#[derive(Drop)]
pub struct TermsIter<'a> {
    rest: &'a [u8],
}

impl<'a> Iterator for TermsIter<'a> {
    ghost use Rattle.std.specs.Iterator.{YieldsFirst, item_count};
    ghost use Rattle.records.specs.Inside.Terms.{left};

    type Item = u32;

    ghost next_gives = { YieldsFirst left };

    ghost remaining = { item_count left };

    fn next(&mut self) -> Option<u32> {
        let (term, rest) = self.rest.split_first_chunk::<TERM_SIZE>()?;
        self.rest = rest;
        Some(u32::from_le_bytes(*term))
    }
}
