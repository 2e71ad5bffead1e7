// One stage judged on all its sharings. Stages and components are counted from 0.
ghost use Rattle.std.specs.Prelude.{◌≡◌, ◌*◌, ◌/◌, ◌^◌, ◌≤◌, ◌<◌, eqb, length, get_or, drop};
ghost use Rattle.finite.specs.Maps.{met_before};
ghost use Rattle.anf.specs.Terms.{named};
ghost use Rattle.design.specs.Inside.Held.{design_of};
ghost use Rattle.design.specs.Inside.Lists.{lists_held};
ghost use Rattle.sharing.specs.Sharing.{sum};
ghost use Rattle.sharing.specs.Inside.Variables.{variables, names_every};
ghost use Rattle.sharing.specs.Stages.{output};
ghost use Rattle.checker.specs.Inside.Parts.{found, first_wrong, offending, first_met, FoundBelow, tries_until};
ghost use Rattle.checker.specs.Inside.Marks.{Clear, Cleared};

use super::forecasts::workspace_for;
use super::marks::{clear, mark_one};
use design::{DesignFile, Head, Lists, two_to};
use finite::power;
use records::Terms;
use threshold::{Outputs, share_mask, sum_of};

// Whether the output sharing `y` sums to what the table makes of the sum of the sharing `x`.
fn agrees(table: &[u8], head: Head, x: u32, y: u32) -> bool
    requires { length table.now ≡ 2 ^ head.m }
    ensures { result ≡ eqb (sum head.m head.s y) (get_or table.now (sum head.m head.s x) 0) }
{
    let secret = sum_of(x, head.m, head.s) as usize;
    sum_of(y, head.m, head.s) == u32::from(table[secret])
}

// How many sharings are tried to find one: up to it, which is tried too, or all.
pub fn tries(head: Head, found: Option<u32>) -> usize
    requires { FoundBelow (2 ^ (head.m * head.s)) found }
    ensures { result ≡ tries_until (2 ^ (head.m * head.s)) found }
{
    match found {
        Some(x) => x as usize + 1,
        None => power(head.share_bits()),
    }
}

// The first sharing at which stage `t` is not correct. The passes over sharings are functions of their own when compiled too, so that the rest of a verdict
// takes none of their registers.
#[inline(never)]
pub fn first_wrong(design: &DesignFile<'_>, t: usize) -> Option<u32>
    requires { t < design.now.head.k }
    ensures { result ≡ first_wrong (design_of design.now) t }
{
    let table = design.table(t);
    let n = two_to(design.head.share_bits());
    for (x, y) in (0..n).zip(Outputs::new(design.lists(t))) {
        if !agrees(table, design.head, x, y) {
            return Some(x);
        }
    }
    None
}

// The variables of share `j`.
fn variables_of(head: Head, j: usize) -> u32
    requires { j < head.s }
    ensures { result ≡ variables head.m j }
{
    share_mask(head.m) << (head.m * j)
}

// Whether the set has a variable of every share.
fn names_every(set: u32, head: Head) -> bool
    ensures { result ≡ names_every head.m head.s set }
{
    (0..head.s).all(
        |j|
            requires { j < head.s }
        { set & variables_of(head, j) != 0 },
    )
}

/// The lowest component of stage `t` that depends on every share. The variables that a component's terms name are gathered in a set. The loops are nested and
/// left by a label, a form that the project asks for here (docs/DECISIONS.md, Forms).
pub fn offending(design: &DesignFile<'_>, t: usize) -> Option<usize>
    requires { t < design.now.head.k }
    ensures { result ≡ offending (design_of design.now) t }
{
    let head = design.head;
    let lists = design.lists(t);
    let mut found = None;
    'components: for j in 0..head.s {
        let mut named: u32 = 0;
        for b in 0..head.m {
            for term in lists.list(head.m * j + b).iter() {
                named |= term;
                if names_every(named, head) {
                    found = Some(j);
                    break 'components;
                }
            }
        }
    }
    found
}

// Marks the output of each sharing, up to the first that is marked already, which it gives. It has the loop of `first_wrong` with another test: one
// function for both, with the test as a closure, is no plainer, as its contract has to say which marks the closure leaves in what it borrows.
#[inline(never)]
fn first_met_in(lists: &Lists<'_>, workspace: &mut [u8]) -> Option<u32>
    requires whole_bytes { 3 ≤ length (lists_held lists.now) }
    requires room { 2 ^ length (lists_held lists.now) / 8 ≤ length workspace.old }
    requires clear { Clear (2 ^ length (lists_held lists.now)) workspace.old }
    ensures value { let ls = lists_held lists.now in
        result ≡ found (2 ^ length ls) (met_before (output ls)) }
    ensures rest { let n = 2 ^ length (lists_held lists.now) / 8 in
        drop n workspace.new ≡ drop n workspace.old }
{
    let n = two_to(lists.len());
    for (x, y) in (0..n).zip(Outputs::new(*lists)) {
        if mark_one(workspace, y as usize) {
            return Some(x);
        }
    }
    None
}

// The first sharing of stage `t` whose output sharing was met before. The marks are zero before and after.
pub fn first_met(design: &DesignFile<'_>, t: usize, workspace: &mut [u8]) -> Option<u32>
    requires stage { t < design.now.head.k }
    requires cleared { Cleared (design_of design.now) workspace.old }
    ensures value { result ≡ first_met (design_of design.now) t }
    ensures workspace_unchanged { workspace.new ≡ workspace.old }
{
    let n = workspace_for(design.head);
    let found = first_met_in(&design.lists(t), workspace);
    clear(workspace, n);
    found
}
