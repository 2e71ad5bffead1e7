// Judges published designs. A line of its input is `m s TABLE` or `m s TABLE PLACEMENT`, a table to produce with s shares, by the published placement where none
// is named, and to judge; or `file HEX`, a design file to judge. It prints what came of each line, and at the end how many were accepted and how many were refused with
// each number.
#![tactic(auto)]

mod request; // request.rt: what a line asks for
mod tally; // tally.rt: how the lines ended, counted

use anyhow::Result;
use jestrunas::Verdict;
use reasons::Reason;
use request::Request;
use std::io::{self, BufRead, BufReader};
use tally::{Outcome, Tally};

// The bytes of the output that is lent for a design file: enough for each that is produced.
const OUTPUT: usize = 32768;

// The bytes of the greatest workspace: a bit for each sharing of the greatest share bits.
const WORKSPACE: usize = 131072;

// The verdict on a file, printed. What `main` owns is lent to each function that prints: a struct of it would be no plainer. Where nothing can be written the
// lines are judged all the same, so what printing answers is dropped.
fn judge_file(rt: &impl Print, file: &[u8], workspace: &mut [u8]) -> Outcome {
    let outcome = checker::judge(file, workspace).outcome;
    let _ = print!(rt; " verdict {}", Verdict::from(outcome));
    match outcome {
        Ok(_) => Outcome::Accepted,
        Err(refusal) => Outcome::Refused(Reason::from(refusal)),
    }
}

// The file of a table, produced and judged.
fn judge_table(
    rt: &(impl Print + AllocGlobal),
    m: usize,
    s: usize,
    table: &[u8],
    placement: &[u8],
    workspace: &mut [u8],
) -> io::Result<Outcome> {
    let mut output = vec![in rt.alloc(); 0u8; OUTPUT]?;
    match producer::produce(m, s, table, placement, &mut output) {
        Ok(length) => {
            let _ = print!(rt; " produce 0 {length}");
            output.truncate(length);
            Ok(judge_file(rt, &output, workspace))
        }
        Err(reason) => {
            let _ = print!(rt; " produce {} 0", reason.number());
            Ok(Outcome::NotProduced(reason))
        }
    }
}

fn judge_request(
    rt: &(impl Print + AllocGlobal),
    request: &Request,
    workspace: &mut [u8],
) -> io::Result<Outcome> {
    match request {
        Request::File(file) => Ok(judge_file(rt, file, workspace)),
        Request::Table {
            m,
            s,
            table,
            placement,
        } => {
            let placement = match placement {
                Some(placement) => placement.as_slice(),
                None => producer::published_placement(*s),
            };
            judge_table(rt, *m, *s, table, placement, workspace)
        }
    }
}

fn main(rt: HostRuntime) -> Result<()> {
    let mut workspace = vec![in rt.alloc(); 0u8; WORKSPACE]?;
    let mut tally = Tally::new(rt.alloc());
    let mut input = BufReader::new(rt.alloc(), rt.stdin())?;
    let mut line = String::new(rt.alloc());
    for i in 1..usize::MAX {
        line.clear();
        let ended = match input.read_line(&mut line) {
            Ok(_) => false,
            // what can be read is judged: an input that the system stops reading ends there
            Err(error) if error.raw_os_error().is_some() => true,
            Err(error) => return Err(error.into()),
        };
        if line.is_empty() {
            break;
        }
        let request = Request::parse(rt.alloc(), &line)?;
        let _ = print!(rt; "{i}");
        let outcome = judge_request(&rt, &request, &mut workspace)?;
        let _ = println!(rt);
        tally.count(outcome)?;
        if ended {
            break;
        }
    }
    let _ = println!(rt; "{tally}");
    Ok(())
}
