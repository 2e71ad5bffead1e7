// The outputs of a stage at all sharings, 64 together: those that differ in their lowest six bits alone. A term is looked at once for all of them: where the
// upper bits have its upper variables it is a coefficient of its lower ones, and the sums over subsets of the coefficients are the outputs.
ghost use Rattle.std.specs.Prelude.{◌≡◌, ◌*◌, ◌/◌, ◌%◌, ◌^◌, length, replicate};
ghost use Rattle.finite.specs.Tests.{tabulate};
ghost use Rattle.records.specs.Inside.Terms.{terms_of};
ghost use Rattle.design.specs.Inside.Lists.{lists_held};
ghost use Rattle.threshold.specs.Inside.Blocks.{outputs_from, term_added, terms_added, coefficients, Ahead};

use anf::words::sum_subsets;
use design::{Lists, two_to};
use records::Terms;

// How many lower variables there are: the sharings of a block differ in them alone.
const LOWER_VARIABLES: usize = 6;

// How many sharings a block has.
const SHARINGS: u32 = 1 << LOWER_VARIABLES;

// A word for each sharing of a block.
type Block = [u32; SHARINGS as usize];

// Adds `p` to the word of the term's lower variables, where `high` has its upper ones.
fn add_term(t: u32, high: u32, p: u32, words: &mut Block)
    ensures { words.new ≡ term_added high p t words.old }
{
    let upper = t / SHARINGS;
    if upper | high == high {
        words[(t % SHARINGS) as usize] ^= p;
    }
}

// The same for each term of a list. These functions take the words and not `Outputs`, so that each is an equation on the words alone.
fn add_terms(list: &Terms<'_>, high: u32, p: u32, words: &mut Block)
    ensures { words.new ≡ terms_added high p (terms_of list.now) words.old }
{
    for term in list.iter() {
        add_term(term, high, p, words);
    }
}

// The coefficients of the lists, in the place of zeros; from the last list down by its number, as in `output_of`.
fn add_lists(lists: &Lists<'_>, high: u32, words: &mut Block)
    requires { words.old ≡ replicate 64 0 }
    ensures { words.new ≡ tabulate 64 (coefficients high 0 (lists_held lists.now)) }
{
    for i in (0..lists.len()).rev() {
        add_terms(&lists.list(i), high, two_to(i), words);
    }
}

// The outputs at the 64 sharings from `x` on.
fn fill(lists: &Lists<'_>, x: u32, words: &mut Block)
    requires { x % 64 ≡ 0 }
    ensures { words.new ≡ outputs_from (lists_held lists.now) x }
{
    words.fill(0);
    add_lists(lists, x / SHARINGS, words);
    sum_subsets(LOWER_VARIABLES, words);
}

// The outputs of the block that `x` stands in, which are there but where it begins one.
fn renew(lists: &Lists<'_>, x: u32, words: &mut Block)
    requires { Ahead (lists_held lists.now) x words.old }
    ensures { words.new ≡ outputs_from (lists_held lists.now) (x / 64 * 64) }
{
    if x % SHARINGS == 0 {
        fill(lists, x, words);
    }
}

/// The outputs of lists at the sharings from 0 on, one after the other: `words` keeps those of the block that the next one stands in.
#[derive(Drop)]
pub struct Outputs<'a> {
    lists: Lists<'a>,
    next: u32,
    words: Block,
    ghost ahead: { Ahead (lists_held lists) next words },
}

impl<'a> Outputs<'a> {
    ghost use Rattle.std.specs.Prelude.{length};
    ghost use Rattle.sharing.specs.Stages.{output};
    ghost use Rattle.threshold.specs.Inside.Outputs.{left};

    /// Those of all sharings.
    pub fn new(lists: Lists<'a>) -> Self
        ensures { let ls = lists_held lists.entry in
            left result ≡ tabulate (2 ^ length ls) (output ls) }
    {
        Outputs {
            lists,
            next: 0,
            words: [0; SHARINGS as usize],
        }
    }
}

impl<'a> Iterator for Outputs<'a> {
    ghost use Rattle.std.specs.Iterator.{YieldsFirst, item_count};
    ghost use Rattle.threshold.specs.Inside.Outputs.{left};

    type Item = u32;

    ghost next_gives = { YieldsFirst left };

    ghost remaining = { item_count left };

    fn next(&mut self) -> Option<u32> {
        let x = self.next;
        if x >> self.lists.len() != 0 {
            return None;
        }
        renew(&self.lists, x, &mut self.words);
        self.next = x + 1;
        Some(self.words[(x % SHARINGS) as usize])
    }
}
