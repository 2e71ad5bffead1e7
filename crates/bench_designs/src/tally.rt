// How the lines ended, counted.
use reasons::Reason;
use std::alloc::{AllocError, Global};
use std::collections::BTreeMap;
use std::fmt;

// How a line ends.
#[derive(Clone, Copy)]
pub enum Outcome {
    Accepted,
    NotProduced(Reason),
    Refused(Reason),
}

// How often each reason was given.
#[derive(Drop)]
struct Counts(BTreeMap<Reason, usize>);

impl Counts {
    fn new(alloc: Global) -> Counts {
        Counts(BTreeMap::new(alloc))
    }

    fn count(&mut self, reason: Reason) -> Result<(), AllocError> {
        let n = self.0.entry(reason)?.or_insert(0);
        *n = n.saturating_add(1);
        Ok(())
    }

    fn sum(&self) -> usize {
        self.0.values().copied().fold(0, usize::saturating_add)
    }
}

// The number of each reason that was given, with how often.
impl fmt::Display for Counts {
    fn fmt<W: fmt::Write>(&self, f: &mut fmt::Formatter<W>) -> fmt::Result {
        for (reason, n) in self.0.iter() {
            write!(f, " {}:{n}", reason.number())?;
        }
        Ok(())
    }
}

// How many lines were accepted, and how many were refused for each reason, by producing and by the verdict.
#[derive(Drop)]
pub struct Tally {
    accepted: usize,
    produce: Counts,
    verdict: Counts,
}

impl Tally {
    pub fn new(alloc: Global) -> Tally {
        Tally {
            accepted: 0,
            produce: Counts::new(alloc),
            verdict: Counts::new(alloc),
        }
    }

    // One line more.
    pub fn count(&mut self, outcome: Outcome) -> Result<(), AllocError> {
        match outcome {
            Outcome::Accepted => self.accepted = self.accepted.saturating_add(1),
            Outcome::NotProduced(reason) => self.produce.count(reason)?,
            Outcome::Refused(reason) => self.verdict.count(reason)?,
        }
        Ok(())
    }
}

impl fmt::Display for Tally {
    fn fmt<W: fmt::Write>(&self, f: &mut fmt::Formatter<W>) -> fmt::Result {
        let Tally {
            accepted,
            produce,
            verdict,
        } = self;
        let refused = produce.sum().saturating_add(verdict.sum());
        write!(
            f,
            "accepted {accepted} refused {refused} produce{produce} verdict{verdict}"
        )
    }
}
