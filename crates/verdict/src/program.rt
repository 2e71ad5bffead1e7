// The verdict program over any reader and writer, whose bytes its contract names: `main` hands it standard input and output.
ghost use Rattle.std.specs.Prelude.{◌≡◌, ◌≤◌, OnOk, IfSome, List, ℕ, length, take};
ghost use Rattle.std.specs.Io.KnownBytes.{Appends, Consumes};
ghost use Rattle.jestrunas.specs.Published.{c_verdict};
ghost use Rattle.verdict.specs.Program.{answered, line_text, line};

use jestrunas::{Verdict, jestrunas_judge};
use reasons::Reason;
use std::io;
use std::io::{Read, Write};

// The most bytes that are judged.
const MOST_BYTES: usize = 32768;

// The bytes of the workspace, as published.
const WORKSPACE: usize = 32768;

// What the program answers an input: 18 where it is longer than what is judged, else the verdict.
fn answered(input: &[u8]) -> Verdict
    ensures { result ≡ c_verdict (answered input.now) }
{
    if input.len() > MOST_BYTES {
        return Verdict {
            reason: Reason::InputTooLong.number(),
            place: 0,
            component: 0,
        };
    }
    let mut workspace = [0u8; WORKSPACE];
    jestrunas_judge(input, &mut workspace).verdict
}

// Reads an input until it ends, `bytes` is full or a read fails: how many bytes were read, and the error of the read that failed.
fn read_input<R: Read>(reader: &mut R, bytes: &mut [u8]) -> (usize, io::Result<()>)
    ensures within { result.0 ≤ length bytes.new }
    ensures whole { OnOk result.1 (IfSome (R.remaining reader.old) (λ input.
        take result.0 bytes.new ≡ take (length bytes.old) input)) }
    ensures read { Consumes (R.remaining reader.old) (R.remaining reader.new) (take result.0 bytes.new) }
{
    let mut n = 0;
    while n < bytes.len() {
        match reader.read(&mut bytes[n..]) {
            Ok(0) => return (n, Ok(())),
            Ok(count) => n += count,
            Err(error) => return (n, Err(error)),
        }
    }
    (n, Ok(()))
}

// The verdict on the bytes of an input that can be read, and the error that cut it short, if one did.
fn judge_input<R: Read>(reader: &mut R) -> (Verdict, io::Result<()>)
    ensures whole { OnOk result.1 (IfSome (R.remaining reader.old) (λ input.
        result.0 ≡ c_verdict (answered input))) }
    ensures read { (bytes : List ℕ) × Consumes (R.remaining reader.old) (R.remaining reader.new) bytes
        × (result.0 ≡ c_verdict (answered bytes)) }
{
    // one byte more than is judged tells that an input is too long
    let mut bytes = [0u8; MOST_BYTES + 1];
    let (n, read) = read_input(reader, &mut bytes);
    (answered(&bytes[..n]), read)
}

// Writes the line of an answer.
fn write_line<W: Write>(v: Verdict, writer: &mut W) -> io::Result<()>
    ensures { OnOk result (Appends (W.contents writer.old) (W.contents writer.new) (line_text v)) }
{
    write!(writer, "{v}\n")
}

/// Reads an input and writes the line of its verdict. Where a read fails, the line is that of what was read before, and the error is answered.
pub fn answer<R: Read + Drop, W: Write>(mut reader: R, writer: &mut W) -> io::Result<()>
    ensures line { OnOk result (IfSome (R.remaining reader) (λ input.
        Appends (W.contents writer.old) (W.contents writer.new) (line input))) }
{
    let (verdict, read) = judge_input(&mut reader);
    write_line(verdict, writer)?;
    read
}
