// The file of two designs joined into one, written.
ghost use Rattle.std.specs.Prelude.{◌≡◌, ◌+◌, ◌≤◌, length, map, take};
ghost use Rattle.anf.specs.Tables.{entry};
ghost use Rattle.design.specs.Inside.Held.{design_of};
ghost use Rattle.design.specs.Limits.{greatest_stages};
ghost use Rattle.records.specs.Encode.{encode};
ghost use Rattle.records.specs.Inside.Writes.{Room, Writes};
ghost use Rattle.joiner.specs.Joining.{joined_design};
ghost use Rattle.joiner.specs.Inside.Through.{Through};

use design::{DesignFile, GREATEST_POINTS};
use records::Writer;

// The table t, each entry sent through the table u, and zeros behind it.
fn sent_through(t: &[u8], u: &[u8]) -> [u8; GREATEST_POINTS]
    requires { Through t.now u.now }
    ensures { take (length t.now) result ≡ map (entry u.now) t.now }
{
    let mut table = [0; GREATEST_POINTS];
    for (x, y) in t.iter().enumerate() {
        table[x] = u[usize::from(*y)];
    }
    table
}

// Writes the file: the stages of both designs as they stand in their files.
pub fn put(a: &DesignFile<'_>, b: &DesignFile<'_>, writer: &mut Writer<'_>)
    requires width { a.now.head.m ≡ b.now.head.m }
    requires stages { a.now.head.k + b.now.head.k ≤ greatest_stages }
    requires room { Room writer.old (encode (joined_design (design_of a.now) (design_of b.now))) }
    ensures { Writes writer.old writer.new (encode (joined_design (design_of a.now) (design_of b.now))) }
{
    let first = a.box_table();
    let table = sent_through(first, b.box_table());
    writer.front(
        a.head.m,
        a.head.s,
        a.head.k + b.head.k,
        &table[..first.len()],
    );
    writer.bytes(a.stages());
    writer.bytes(b.stages());
    writer.end();
}
