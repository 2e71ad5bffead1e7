// Powers of two and a copy of bytes, for the crates above. What the crate is for are its definitions and laws: tests, counts and sums over the numbers below n,
// sets that are numbers, the first fault of a list.
#![tactic(auto)]

ghost use Rattle.std.specs.Prelude.{◌≡◌, ◌++◌, ◌^◌, ◌<◌, ◌≤◌, length, drop};

/// 2 to the power of `e`.
pub fn power(e: usize) -> usize
    requires { e < 64 }
    ensures { result ≡ 2 ^ e }
{
    1 << e
}

/// Writes bytes over the front of `out`. A loop, and not std's `copy_from_slice`: that one has the archive for C ask for `memmove`.
pub fn copy(bytes: &[u8], out: &mut [u8])
    requires { length bytes.now ≤ length out.old }
    ensures { out.new ≡ bytes.now ++ drop (length bytes.now) out.old }
{
    for i in 0..bytes.len() {
        out[i] = bytes[i];
    }
}
