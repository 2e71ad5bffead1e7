// A list of terms that grows, in fixed memory.
ghost use Rattle.std.specs.Prelude.{ℕ, ◌≡◌, ◌<◌, ◌≤◌, List, [], length, take, position};
ghost use Rattle.anf.specs.Terms.{before};
ghost use Rattle.design.specs.Inside.Inserting.{inserted};

use anf::stands_before;
use std::marker::Model;

// Where the first term is that the term t stands before.
fn first_behind(terms: &[u32], t: u32) -> Option<usize>
    ensures { result ≡ position (before t) terms.now }
{
    terms.iter().position(|x| stands_before(t, *x))
}

/// A list of at most `N` terms.
#[derive(Drop)]
pub struct TermList<const N: usize> {
    terms: [u32; N],
    len: usize,
}

// Clauses see the terms.
impl<const N: usize> Model for TermList<N> {
    ghost Value = { List ℕ };

    ghost view = { λ l. take l.len l.terms };

    ghost invariant = { λ l. l.len ≤ N };
}

impl<const N: usize> TermList<N> {
    /// The list of no term.
    pub fn new() -> Self
        ensures { result ≡ [] }
    {
        TermList {
            terms: [0; N],
            len: 0,
        }
    }

    /// How many terms there are.
    pub fn len(&self) -> usize
        ensures value { result ≡ length self.now }
        ensures most { result ≤ N }
    {
        self.as_slice().len()
    }

    /// The terms in their order.
    pub fn as_slice(&self) -> &[u32]
        ensures value { result.now ≡ self.now }
        ensures most { length self.now ≤ N }
    {
        &self.terms[..self.len]
    }

    /// Takes all terms out.
    pub fn clear(&mut self)
        ensures { self.new ≡ [] }
    {
        self.len = 0;
    }

    /// Puts the term t into its place. Those behind it go one place further by a loop, and not by std's `rotate_right`: that one has the archive for C ask for
    /// `memmove`.
    pub fn insert(&mut self, t: u32)
        requires { length self.old < N }
        ensures { self.new ≡ inserted t self.old }
    {
        let at = first_behind(&self.terms[..self.len], t).unwrap_or(self.len);
        let mut next = t;
        for i in at..self.len {
            let term = self.terms[i];
            self.terms[i] = next;
            next = term;
        }
        self.terms[self.len] = next;
        self.len += 1;
    }
}
