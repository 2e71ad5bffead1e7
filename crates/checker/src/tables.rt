// The chain of tables.
ghost use Rattle.std.specs.Prelude.{◌≡◌, ◌^◌, ◌<◌};
ghost use Rattle.design.specs.Inside.Held.{design_of};
ghost use Rattle.sharing.specs.Chain.{chained};
ghost use Rattle.checker.specs.Verdict.{chain_is_box};

use design::DesignFile;

// What the tables of the stages make of `x`: that of the first stage is applied first.
fn chained(design: &DesignFile<'_>, x: usize) -> usize
    requires { x < 2 ^ design.now.head.m }
    ensures { result ≡ chained (design_of design.now).stages x }
{
    let mut y = x;
    for t in 0..design.head.k {
        y = usize::from(design.table(t)[y]);
    }
    y
}

// Whether the chain of tables is S.
pub fn chain_is_box(design: &DesignFile<'_>) -> bool
    ensures { result ≡ chain_is_box (design_of design.now) }
{
    (0..design.head.points()).all(
        |x|
            requires { x < 2 ^ design.now.head.m }
        { chained(design, x) == usize::from(design.box_table()[x]) },
    )
}
