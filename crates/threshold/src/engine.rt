// The output of a stage at a sharing, from the file's bytes, and the sum of a sharing.
ghost use Rattle.std.specs.Prelude.{◌≡◌, ◌-◌, ◌*◌, ◌^◌, ◌≤◌, ◌<◌, length};
ghost use Rattle.design.specs.Limits.{greatest_width};
ghost use Rattle.records.specs.Design.{stage_of};
ghost use Rattle.design.specs.Inside.Held.{design_of};
ghost use Rattle.records.specs.Inside.Terms.{terms_of};
ghost use Rattle.design.specs.Inside.Lists.{lists_held};
ghost use Rattle.anf.specs.Terms.{value_at};
ghost use Rattle.sharing.specs.Sharing.{sum};
ghost use Rattle.sharing.specs.Stages.{output, component};

use design::{DesignFile, Lists};
use records::Terms;

// The value of a list at `x`: how many of its terms are 1 there, modulo 2.
fn value_of(list: &Terms<'_>, x: u32) -> u32
    ensures { result ≡ value_at (terms_of list.now) x }
{
    let mut value: u32 = 0;
    for term in list.iter() {
        value ^= u32::from(term | x == x);
    }
    value
}

/// The output of the lists at the sharing `x`, from the last list down, by its number: no iterator goes over lists from the last, and
/// one for this loop and that of `add_lists` would be no plainer.
pub fn output_of(lists: &Lists<'_>, x: u32) -> u32
    ensures value { result ≡ output (lists_held lists.now) x }
    ensures most { result < 2 ^ length (lists_held lists.now) }
{
    let mut y: u32 = 0;
    for i in (0..lists.len()).rev() {
        y = 2 * y + value_of(&lists.list(i), x);
    }
    y
}

/// What component `j` of stage `t` gives at the sharing `x`.
pub fn component_at(design: &DesignFile<'_>, t: usize, j: usize, x: u32) -> u32
    requires stage { t < design.now.head.k }
    requires component { j < design.now.head.s }
    ensures value { let lists = (stage_of (design_of design.now) t).lists in
        result ≡ component design.now.head.m lists j x }
    ensures most { result < 2 ^ design.now.head.m }
{
    let m = design.head.m;
    output_of(&design.lists(t).part(m * j, m), x)
}

/// The bits of a share of width `m`: 2 to the power of `m`, less 1. A number and no head, as for `sum_of`.
pub fn share_mask(m: usize) -> u32
    requires { m ≤ greatest_width }
    ensures { result ≡ 2 ^ m - 1 }
{
    (finite::power(m) - 1) as u32
}

/// The value that the sharing `x` of `s` shares shares, however many they are: so it takes two numbers and no head. What stands above each share is added too,
/// and masked at the end.
pub fn sum_of(x: u32, m: usize, s: usize) -> u32
    requires { m ≤ greatest_width }
    ensures value { result ≡ sum m s x }
    ensures most { result < 2 ^ m }
{
    let mut total: u32 = 0;
    let mut rest = x;
    for _ in 0..s {
        total ^= rest;
        rest >>= m;
    }
    total & share_mask(m)
}
