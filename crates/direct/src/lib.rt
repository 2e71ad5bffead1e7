// The direct sharing: the placement, the expansion of terms into products, and the list of one bit of one component.
#![tactic(auto)]

ghost use Rattle.std.specs.Prelude.{◌≡◌, false, ◌+◌, ◌-◌, ◌^◌, ◌<◌, ◌≤◌, length};
ghost use Rattle.std.specs.Int.Bits.{bit_or};
ghost use Rattle.finite.specs.Sets.{has as has_element};
ghost use Rattle.design.specs.Limits.{greatest_shares, broken};
ghost use Rattle.design.specs.Inside.Inserting.{inserted_all};
ghost use Rattle.direct.specs.Direct.{is_outside, loads, published, placed};
ghost use Rattle.direct.specs.Inside.Outside.{Outside, most_terms};

use design::{Head, TermList};
use finite::power;
use reasons::Reason;

/// The greatest number of terms of a list of a direct sharing: s^m within the limits.
pub const MOST_TERMS: usize = 1024;

// The published placements for three, four and five shares.
const OF_THREE: [u8; 6] = [3, 1, 3, 2, 2, 1];

const OF_FOUR: [u8; 14] = [4, 1, 4, 2, 2, 1, 4, 3, 3, 1, 3, 2, 2, 1];

const OF_FIVE: [u8; 30] = [
    5, 1, 5, 2, 2, 1, 5, 3, 3, 1, 3, 2, 2, 1, 5, 4, 4, 1, 4, 2, 2, 1, 4, 3, 3, 1, 3, 2, 2, 1,
];

/// The published placement for s shares. Where s breaks the limits there is none, and the answer has no byte.
pub fn published_placement(s: usize) -> &'static [u8]
    ensures { result.now ≡ published s }
{
    match s {
        3 => &OF_THREE,
        4 => &OF_FOUR,
        5 => &OF_FIVE,
        _ => &[],
    }
}

// Parts of `gather` and `expand` as functions of their own, so that their goals speak of sets and not of shifts. Each asks for an element of a word, which as
// a type of its own would be no plainer. Whether the set x has the element i.
#[tactic(auto, unfolding(finite::specs::Sets::has))]
fn has(x: u32, i: usize) -> bool
    requires { i < 32 }
    ensures { result ≡ has_element x i }
{
    (x >> i) % 2 == 1
}

// The set x with the element i too.
#[tactic(auto, using(std::proofs::lemmas::Nat::one_shl))]
fn with(x: u32, i: usize) -> u32
    requires { i < 32 }
    ensures { result ≡ bit_or x (2 ^ i) }
{
    x | (1 << i)
}

// The set x without its element i.
fn without(x: u32, i: usize) -> u32
    requires there { 2 ^ i ≤ x }
    requires low { i < 32 }
    ensures { result ≡ x - 2 ^ i }
{
    x - (1 << i)
}

// Whether the byte c is, counted from 1, one of s components outside the set of shares.
#[tactic(auto, unfolding(crate::specs::Direct::is_outside))]
fn is_outside(s: usize, set: u32, c: u8) -> bool
    requires { s < 32 }
    ensures { result ≡ is_outside s set c }
{
    let c = usize::from(c);
    1 <= c && c <= s && !has(set, c - 1)
}

// Whether the placement loads.
fn loads(s: usize, placement: &[u8]) -> bool
    requires some { 1 ≤ s }
    requires few { s ≤ greatest_shares }
    ensures { result ≡ loads s placement.now }
{
    let sets = power(s) - 2;
    placement.len() == sets
        && (0..sets).all(
            |i|
                requires few { s ≤ greatest_shares }
                requires set { i < 2 ^ s - 2 }
                requires sets { length placement.now ≡ 2 ^ s - 2 }
            { is_outside(s, i as u32 + 1, placement[i]) },
        )
}

/// The rule of the direct sharing of m bits in s shares: the numbers of a head but that of the stages, which the rule does not need, and the placement.
#[derive(Clone, Copy)]
pub struct Rule<'a> {
    pub m: usize,
    pub s: usize,
    pub placement: &'a [u8],
    pub ghost limits: { broken m s 1 ≡ false },
    pub ghost outside: { Outside s (placed s placement.now) },
}

impl Rule<'_> {
    ghost use Rattle.direct.specs.Inside.Placing.{RuleBy, place_by, emits, list_by};

    /// The rule of a head with a placement, if it loads.
    pub fn new<'a>(head: Head, placement: &'a [u8]) -> Result<Rule<'a>, Reason>
        ensures { RuleBy head.m head.s placement.now result }
    {
        if !loads(head.s, placement) {
            return Err(Reason::BadPlacement);
        }
        Ok(Rule {
            m: head.m,
            s: head.s,
            placement,
        })
    }

    // The component to which the placement sends a product, by its chosen shares.
    fn component(&self, chosen: u32) -> usize
        ensures { result ≡ place_by self.now chosen }
    {
        let chosen = chosen as usize;
        if chosen == 0 {
            return 0;
        }
        if self.placement.len() < chosen {
            return self.s;
        }
        usize::from(self.placement[chosen - 1]).saturating_sub(1)
    }

    // Puts into their places the products of the variables of u, on top of p, for which the shares `chosen` are chosen so far: those that go to the
    // component `to`.
    fn expand(&self, u: u32, to: usize, p: u32, chosen: u32, list: &mut TermList<MOST_TERMS>)
        requires within { u < 2 ^ self.now.m }
        requires room { length list.old + length (emits self.now u to p chosen) ≤ most_terms }
        ensures { list.new ≡ inserted_all (emits self.now u to p chosen) list.old }
    {
        if u == 0 {
            if self.component(chosen) == to {
                list.insert(p);
            }
            return;
        }
        let v = u.ilog2() as usize;
        let rest = without(u, v);
        for j in 0..self.s {
            let q = with(p, self.m * j + v);
            self.expand(rest, to, q, with(chosen, j), list);
        }
    }

    /// Gathers the list of bit b of the component `to` from the coefficient words.
    pub fn gather(&self, words: &[u8], to: usize, b: usize, list: &mut TermList<MOST_TERMS>)
        requires component { to < self.now.s }
        requires bit { b < self.now.m }
        requires entries { 2 ^ self.now.m ≤ length words.now }
        ensures { list.new ≡ list_by self.now words.now to b }
    {
        list.clear();
        for (u, word) in words[..power(self.m)].iter().enumerate() {
            if has(u32::from(*word), b) {
                self.expand(u as u32, to, 0, 0, list);
            }
        }
    }
}
