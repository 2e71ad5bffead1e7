// What C is answered, which has no Result: structs by value, each with what makes it of an outcome.
use checker::{Judgement, Needs, Refusal};
use design::Head;
use reasons::Reason;
use std::fmt;
use threshold::FiveShares;

/// The first fault: its number as published, 0 where there is none; and the place and the component that the number names, 0 where it names none. Where a design
/// is accepted the place is the number of its stages.
#[repr(C)]
#[derive(Clone, Copy, Debug, PartialEq, Eq)]
pub struct Verdict {
    /// 0, or 1 to 10 or 12 to 14.
    pub reason: usize,
    /// With 1 to 7 in bytes from the start of the file; with 12 to 14 the stage, 1 to 4.
    pub place: usize,
    /// With 13, 1 to 5.
    pub component: usize,
}

/// A verdict, and how many trials it took.
#[repr(C)]
#[derive(Clone, Copy, Debug, PartialEq, Eq)]
pub struct Judged {
    /// The first fault, or none.
    pub verdict: Verdict,
    /// One for each sharing put through a stage, 0 to 8 × 2^(m × s) (RULES 7).
    pub trials: usize,
}

/// What a verdict can take: bytes of workspace, and the most trials; or the number of a refusal of the head record, and two zeros.
#[repr(C)]
#[derive(Clone, Copy, Debug, PartialEq, Eq)]
pub struct Forecast {
    /// 0, or 1 to 4.
    pub reason: usize,
    /// 2^(m × s) / 8 bytes, 1 to 131,072.
    pub workspace: usize,
    /// 2 × k × 2^(m × s), at most 8,388,608.
    pub trials: usize,
}

/// What a run gives: 0 and five output shares, or the number of a refusal and five zeros.
#[repr(C)]
#[derive(Clone, Copy, Debug, PartialEq, Eq)]
pub struct Ran {
    /// 0, or 1 to 7 or 15.
    pub reason: usize,
    /// Share j is below 2^m, and those after the s-th are 0.
    pub shares: FiveShares,
}

/// What an operation that writes a file gives: 0 and the length of the file in bytes, or the number of a refusal and 0.
#[repr(C)]
#[derive(Clone, Copy, Debug, PartialEq, Eq)]
pub struct Produced {
    /// 0, or the number of a refusal.
    pub reason: usize,
    /// In bytes.
    pub length: usize,
}

impl From<Refusal> for Verdict {
    ghost use Rattle.std.specs.Prelude.{◌≡◌};
    ghost use Rattle.checker.specs.Outcome.{refused_with};
    ghost use Rattle.jestrunas.specs.Published.{c_verdict};

    ghost from_gives = { λ refusal answer. answer ≡ c_verdict (refused_with refusal) };

    fn from(refusal: Refusal) -> Verdict {
        let reason = Reason::from(refusal).number();
        let (place, component) = match refusal {
            Refusal::Unreadable(error) => (error.place, 0),
            Refusal::BoxRepeats | Refusal::WorkspaceTooSmall | Refusal::ChainIsNotBox => (0, 0),
            Refusal::NotCorrect { stage } | Refusal::NotUniform { stage } => (stage, 0),
            Refusal::NotNonComplete { stage, component } => (stage, component),
        };
        Verdict {
            reason,
            place,
            component,
        }
    }
}

impl From<Result<usize, Refusal>> for Verdict {
    ghost use Rattle.std.specs.Prelude.{◌≡◌};
    ghost use Rattle.checker.specs.Outcome.{verdict_of};
    ghost use Rattle.jestrunas.specs.Published.{c_verdict};

    ghost from_gives = { λ outcome answer. answer ≡ c_verdict (verdict_of outcome) };

    fn from(outcome: Result<usize, Refusal>) -> Verdict {
        match outcome {
            Ok(place) => Verdict {
                reason: 0,
                place,
                component: 0,
            },
            Err(refusal) => Verdict::from(refusal),
        }
    }
}

/// Reason, place and component in decimal numbers, one space between.
impl fmt::Display for Verdict {
    ghost use Rattle.std.specs.Prelude.{Some};
    ghost use Rattle.jestrunas.specs.Published.{verdict_text};

    ghost output = { λ v. Some (verdict_text v) };

    fn fmt<W: fmt::Write>(&self, f: &mut fmt::Formatter<W>) -> fmt::Result {
        write!(f, "{} {} {}", self.reason, self.place, self.component)
    }
}

impl From<Judgement> for Judged {
    ghost use Rattle.std.specs.Prelude.{◌≡◌};
    ghost use Rattle.checker.specs.Outcome.{judged_of};
    ghost use Rattle.jestrunas.specs.Published.{c_judged};

    ghost from_gives = { λ judgement answer. answer ≡ c_judged (judged_of judgement) };

    fn from(judgement: Judgement) -> Judged {
        Judged {
            verdict: Verdict::from(judgement.outcome),
            trials: judgement.trials,
        }
    }
}

impl From<Result<Needs, Reason>> for Forecast {
    ghost use Rattle.std.specs.Prelude.{◌≡◌};
    ghost use Rattle.checker.specs.Outcome.{forecast_of};
    ghost use Rattle.jestrunas.specs.Published.{c_forecast};

    ghost from_gives = { λ outcome answer. answer ≡ c_forecast (forecast_of outcome) };

    fn from(outcome: Result<Needs, Reason>) -> Forecast {
        match outcome {
            Ok(needs) => Forecast {
                reason: 0,
                workspace: needs.workspace,
                trials: needs.trials,
            },
            Err(of_head) => Forecast {
                reason: of_head.number(),
                workspace: 0,
                trials: 0,
            },
        }
    }
}

impl From<Result<FiveShares, Reason>> for Ran {
    ghost use Rattle.std.specs.Prelude.{◌≡◌};
    ghost use Rattle.threshold.specs.Outcome.{ran_of};
    ghost use Rattle.jestrunas.specs.Published.{c_ran};

    ghost from_gives = { λ outcome answer. answer ≡ c_ran (ran_of outcome) };

    fn from(outcome: Result<FiveShares, Reason>) -> Ran {
        match outcome {
            Ok(shares) => Ran { reason: 0, shares },
            Err(reason) => Ran {
                reason: reason.number(),
                shares: [0; Head::GREATEST_SHARES],
            },
        }
    }
}

impl From<Result<usize, Reason>> for Produced {
    ghost use Rattle.std.specs.Prelude.{◌≡◌};
    ghost use Rattle.records.specs.Writing.{produced_of};
    ghost use Rattle.jestrunas.specs.Published.{c_produced};

    ghost from_gives = { λ outcome answer. answer ≡ c_produced (produced_of outcome) };

    fn from(outcome: Result<usize, Reason>) -> Produced {
        match outcome {
            Ok(length) => Produced { reason: 0, length },
            Err(reason) => Produced {
                reason: reason.number(),
                length: 0,
            },
        }
    }
}
