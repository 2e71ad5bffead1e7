// Reading: the tests of each record in the published order, and the walk over all records.
// They take the file and a place, and no slice from there: the place is what a fault names.
ghost use Rattle.std.specs.Prelude.{◌≡◌, ◌+◌, ◌/◌, ◌^◌, ◌≤◌, ◌<◌, true, length, take, drop, IfOk};
ghost use Rattle.std.specs.Option.{option_map_or};
ghost use Rattle.finite.specs.Tests.{all};
ghost use Rattle.anf.specs.Terms.{before};
ghost use Rattle.records.specs.Bytes.{u16_at};
ghost use Rattle.records.specs.Kinds.{code};
ghost use Rattle.design.specs.Errors.{fault_of};
ghost use Rattle.design.specs.Reading.{reading, head_of, length_due, term_fits, fault_at};
ghost use Rattle.design.specs.Inside.Framing.{frame_fault};
ghost use Rattle.design.specs.Layout.{head_read, layout_of};
ghost use Rattle.design.specs.Heads.{numbers, head_reading};
ghost use Rattle.design.specs.Answers.{reading_of, layout_read};

use super::{DesignFile, Fault, GREATEST_RECORDS, Head, ReadError};
use anf::{entries_below, stands_before};
use records::{Kind, RECORD_HEAD_SIZE, TERM_SIZE, Terms, record_size, u16_at};

// Whether a record of this kind may have the length `n`.
fn length_fits(kind: Kind, size: usize, n: usize) -> bool
    ensures { result ≡ length_due (code kind) size n }
{
    match kind {
        Kind::List => n % TERM_SIZE == 0 && n <= size,
        _ => n == size,
    }
}

// How many bytes the body of the record at `at` has.
fn body_size(file: &[u8], at: usize) -> usize
    requires { at + 2 ≤ length file.now }
    ensures { result ≡ u16_at file.now at }
{
    usize::from(u16_at(file, at))
}

// The body of the record at `at`, where neither its head nor its length has a fault.
fn framed(file: &[u8], at: usize, kind: Kind, size: usize) -> Result<&[u8], Fault>
    requires { at ≤ length file.now }
    ensures fault { fault_of result ≡ frame_fault file.now at (code kind) size }
    ensures body { let n = u16_at file.now at in
        IfOk result (λ body. body.now ≡ take n (drop (at + 4) file.now)) }
{
    if file.len() - at < RECORD_HEAD_SIZE {
        return Err(Fault::CutShort);
    }
    if u16_at(file, at + 2) != kind.code() {
        return Err(Fault::WrongKind);
    }
    let n = body_size(file, at);
    if !length_fits(kind, size, n) {
        return Err(Fault::WrongLength);
    }
    if file.len() - at - RECORD_HEAD_SIZE < n {
        return Err(Fault::CutShort);
    }
    let from = at + RECORD_HEAD_SIZE;
    Ok(&file[from..from + n])
}

// Whether the term `t` rises: it is the first, or the one before it stands before it.
fn rises(latest: Option<u32>, t: u32) -> bool
    ensures { result ≡ option_map_or (λ a. before a t) latest true }
{
    match latest {
        None => true,
        Some(a) => stands_before(a, t),
    }
}

// Whether the terms of a list's body are all below 2^bits and strictly rise. Each term is looked at, whatever came before it, so that no turn waits for a test:
// they are below 2^bits when all that they have together is.
fn terms_fit(body: &[u8], bits: usize) -> bool
    requires { bits < 32 }
    ensures { result ≡ all (length body.now / 4) (term_fits body.now 0 (2 ^ bits)) }
{
    let mut latest: Option<u32> = None;
    let mut rise = true;
    let mut together = 0u32;
    for t in Terms::new(body).iter() {
        rise &= rises(latest, t);
        together |= t;
        latest = Some(t);
    }
    rise & (together >> bits == 0)
}

// The length of the body of record `i`, which starts at `at`, where the record has no fault.
fn faultless(file: &[u8], head: Head, i: usize, at: usize) -> Result<usize, Fault>
    requires behind_head { 1 ≤ i }
    requires within { at ≤ length file.now }
    ensures fault { fault_of result ≡ fault_at file.now (numbers head) i at }
    ensures size { IfOk result (λ n. n ≡ u16_at file.now at) }
{
    let kind = head.kind_due(i);
    let body = framed(file, at, kind, head.size_due(kind))?;
    match kind {
        Kind::Table => {
            if entries_below(body, head.points()) {
                return Ok(body.len());
            }
            Err(Fault::EntryTooLarge)
        }
        Kind::List => {
            if terms_fit(body, head.share_bits()) {
                return Ok(body.len());
            }
            Err(Fault::BadTerm)
        }
        Kind::Head | Kind::End => Ok(body.len()),
    }
}

// The records after the head.
fn walk(file: &[u8], head: Head) -> Result<DesignFile<'_>, ReadError>
    requires head { numbers head ≡ head_of file.now }
    requires faultless { fault_at file.now (numbers head) 0 0 ≡ 0 }
    ensures reading { reading_of result ≡ reading file.now }
    ensures layout { layout_read result ≡ layout_of file.now }
{
    let mut starts = [0usize; GREATEST_RECORDS];
    starts[0] = RECORD_HEAD_SIZE;
    let mut at = record_size(Head::SIZE);
    for i in 1..head.last() + 1 {
        // A match, as `map_err` would need a contract at its closure, which is no plainer.
        match faultless(file, head, i, at) {
            Ok(n) => {
                starts[i] = at + RECORD_HEAD_SIZE;
                at = at + RECORD_HEAD_SIZE + n;
            }
            Err(fault) => return Err(ReadError { fault, place: at }),
        }
    }
    if at < file.len() {
        return Err(ReadError {
            fault: Fault::BytesFollow,
            place: at,
        });
    }
    Ok(DesignFile { file, head, starts })
}

/// Reads the head record alone.
pub fn read_head(file: &[u8]) -> Result<Head, Fault>
    ensures { head_reading result ≡ head_read file.now }
{
    let body = framed(file, 0, Kind::Head, Head::SIZE)?;
    let m = usize::from(body[0]);
    let s = usize::from(body[1]);
    let k = usize::from(body[2]);
    Head::new(m, s, k).or(Err(Fault::LimitBroken))
}

/// Reads a design file: the head record, then the others.
pub fn read(file: &[u8]) -> Result<DesignFile<'_>, ReadError>
    ensures reading { reading_of result ≡ reading file.now }
    ensures layout { layout_read result ≡ layout_of file.now }
{
    // A match, as `map_err` would need a contract at its closure, which is no plainer.
    match read_head(file) {
        Ok(head) => walk(file, head),
        Err(fault) => Err(ReadError { fault, place: 0 }),
    }
}
