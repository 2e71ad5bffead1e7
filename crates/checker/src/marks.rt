// Marks in a lent workspace: one bit for each sharing, eight to a byte, lowest first.
ghost use Rattle.std.specs.Prelude.{◌≡◌, ◌/◌, ◌≤◌, ◌<◌, length};
ghost use Rattle.checker.specs.Verdict.{zeroed};
ghost use Rattle.checker.specs.Inside.Marks.{marked, mark};

// Zeroes the first `n` bytes: a function for the definition that says so (RULES 6.4).
pub fn clear(marks: &mut [u8], n: usize)
    requires { n ≤ length marks.old }
    ensures { marks.new ≡ zeroed n marks.old }
{
    marks[..n].fill(0);
}

// Marks `y` in the lent bytes, which a struct round them would not make plainer, since it would hold nothing else, and answers whether it was marked before.
pub fn mark_one(marks: &mut [u8], y: usize) -> bool
    requires { y / 8 < length marks.old }
    ensures value { result ≡ marked marks.old y }
    ensures marks_after { marks.new ≡ mark marks.old y }
{
    let q = y / 8;
    let k = y % 8;
    let b = marks[q];
    marks[q] = b | (1 << k);
    (b >> k) % 2 == 1
}
