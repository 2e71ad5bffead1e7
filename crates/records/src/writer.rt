// Writing a design file piece by piece: its front, tables, lists, pieces that stand in another file, and the end.
ghost use Rattle.std.specs.Prelude.{◌≡◌, ◌+◌, ◌*◌, ◌<◌, length};
ghost use Rattle.records.specs.Records.{record_head, a_record, list_record, end_record};
ghost use Rattle.records.specs.Encode.{front_bytes};

use super::{Kind, RECORD_HEAD_SIZE, TERM_SIZE};
use finite::copy;

/// An output that is written from its front on: the next byte goes to the place `at`. Each method asks for room for the bytes that it writes, and that a body's
/// length and a head's number fit their bytes.
#[derive(Drop)]
pub struct Writer<'a> {
    pub out: &'a mut [u8],
    pub at: usize,
}

impl<'a> Writer<'a> {
    ghost use Rattle.records.specs.Inside.Writes.{Starts, Room, Writes};
    ghost use Rattle.records.specs.Kinds.{code};

    /// Starts at the front of an output.
    pub fn new(out: &'a mut [u8]) -> Writer<'a>
        ensures { Starts out.entry result }
    {
        Writer { out, at: 0 }
    }

    /// Writes bytes as they are.
    pub fn bytes(&mut self, bytes: &[u8])
        requires { Room self.old bytes.now }
        ensures { Writes self.old self.new bytes.now }
    {
        let end = self.at + bytes.len();
        copy(bytes, &mut self.out[self.at..end]);
        self.at = end;
    }

    // Writes a record's head: the length of its body, and its kind.
    fn head(&mut self, size: usize, kind: Kind)
        requires room { Room self.old (record_head size (code kind)) }
        requires short { size < 65536 }
        ensures { Writes self.old self.new (record_head size (code kind)) }
    {
        self.bytes(&(size as u16).to_le_bytes());
        self.bytes(&kind.code().to_le_bytes());
    }

    // Writes a record of a kind.
    fn record(&mut self, kind: Kind, body: &[u8])
        requires room { Room self.old (a_record (code kind) body.now) }
        requires short { length body.now < 65536 }
        ensures { Writes self.old self.new (a_record (code kind) body.now) }
    {
        self.head(body.len(), kind);
        self.bytes(body);
    }

    /// Writes the front of a file: the record of the head's three numbers, and that of the box.
    pub fn front(&mut self, m: usize, s: usize, k: usize, table: &[u8])
        requires room { Room self.old (front_bytes m s k table.now) }
        requires m_byte { m < 256 }
        requires s_byte { s < 256 }
        requires k_byte { k < 256 }
        requires short { length table.now < 65536 }
        ensures { Writes self.old self.new (front_bytes m s k table.now) }
    {
        self.record(Kind::Head, &[m as u8, s as u8, k as u8]);
        self.table(table);
    }

    /// Writes the record of a table.
    pub fn table(&mut self, table: &[u8])
        requires room { Room self.old (a_record 2 table.now) }
        requires short { length table.now < 65536 }
        ensures { Writes self.old self.new (a_record 2 table.now) }
    {
        self.record(Kind::Table, table);
    }

    /// Writes the record of a list of terms.
    pub fn list(&mut self, terms: &[u32])
        requires room { Room self.old (list_record terms.now) }
        requires short { 4 * length terms.now < 65536 }
        ensures { Writes self.old self.new (list_record terms.now) }
    {
        self.head(TERM_SIZE * terms.len(), Kind::List);
        for term in terms {
            self.bytes(&term.to_le_bytes());
        }
    }

    /// Writes the record that ends a file.
    pub fn end(&mut self)
        requires { Room self.old end_record }
        ensures { Writes self.old self.new end_record }
    {
        self.head(0, Kind::End);
    }
}

/// How many bytes a record takes whose body has so many.
pub fn record_size(body: usize) -> usize
    requires { body < 65536 }
    ensures { result ≡ 4 + body }
{
    RECORD_HEAD_SIZE + body
}
