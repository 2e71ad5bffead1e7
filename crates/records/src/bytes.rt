// Numbers in a file, little-endian. A file and a place, and no slice from there: the place is what a fault names.
ghost use Rattle.std.specs.Prelude.{◌≡◌, ◌+◌, ◌≤◌, length};
ghost use Rattle.records.specs.Bytes.{u16_at};

/// The number of two bytes at `at`.
#[tactic(auto, unfolding(crate::specs::Bytes::u16_at))]
pub fn u16_at(file: &[u8], at: usize) -> u16
    requires { at + 2 ≤ length file.now }
    ensures { result ≡ u16_at file.now at }
{
    u16::from_le_bytes([file[at], file[at + 1]])
}
