// What a line asks for.
use anyhow::{Context, Result, bail};
use std::alloc::Global;

#[derive(Drop)]
pub enum Request {
    // `m s TABLE`: a table to produce with s shares and to judge, by the published placement; with a fourth word by that one.
    Table {
        m: usize,
        s: usize,
        table: Vec<u8>,
        placement: Option<Vec<u8>>,
    },
    // `file HEX`: a design file to judge.
    File(Vec<u8>),
}

// The values of a word's hexadecimal digits.
fn digits(alloc: Global, word: &str) -> Result<Vec<u8>> {
    let mut digits = Vec::new(alloc);
    for c in word.chars() {
        let digit = c.to_digit(16).context("not a hexadecimal digit")?;
        digits.push(digit as u8)?;
    }
    Ok(digits)
}

// The entries of a table: a digit each, or two where m is above 4.
fn entries(alloc: Global, m: usize, word: &str) -> Result<Vec<u8>> {
    if m > 4 {
        Ok(hex::decode(alloc, word)?)
    } else {
        digits(alloc, word)
    }
}

impl Request {
    pub fn parse(alloc: Global, line: &str) -> Result<Request> {
        let words: Vec<&str> = line.split_whitespace().collect(alloc)?;
        match *words.as_slice() {
            ["file", file] => Ok(Request::File(hex::decode(alloc, file)?)),
            [m, s, table, ref rest @ ..] if rest.len() <= 1 => {
                let (m, s) = (m.parse()?, s.parse()?);
                let table = entries(alloc, m, table)?;
                let placement = match rest.first() {
                    Some(placement) => Some(digits(alloc, placement)?),
                    None => None,
                };
                Ok(Request::Table {
                    m,
                    s,
                    table,
                    placement,
                })
            }
            _ => bail!("neither a table nor a file"),
        }
    }
}
