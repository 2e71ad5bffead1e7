// Why a file is refused.
use design::ReadError;
use reasons::Reason;

/// Why a file is refused, in the published order. Stages and components are counted from 1, as published.
#[derive(Clone, Copy, Debug, PartialEq, Eq)]
pub enum Refusal {
    Unreadable(ReadError),
    BoxRepeats,
    WorkspaceTooSmall,
    ChainIsNotBox,
    NotCorrect { stage: usize },
    NotNonComplete { stage: usize, component: usize },
    NotUniform { stage: usize },
}

impl From<Refusal> for Reason {
    ghost use Rattle.std.specs.Prelude.{◌≡◌};
    ghost use Rattle.reasons.specs.Numbers.{number};
    ghost use Rattle.checker.specs.Outcome.{refused_with};

    ghost from_gives = { λ refusal reason. number reason ≡ (refused_with refusal).reason };

    fn from(refusal: Refusal) -> Reason {
        match refusal {
            Refusal::Unreadable(error) => Reason::from(error),
            Refusal::BoxRepeats => Reason::BoxRepeats,
            Refusal::WorkspaceTooSmall => Reason::WorkspaceTooSmall,
            Refusal::ChainIsNotBox => Reason::ChainIsNotBox,
            Refusal::NotCorrect { .. } => Reason::NotCorrect,
            Refusal::NotNonComplete { .. } => Reason::NotNonComplete,
            Refusal::NotUniform { .. } => Reason::NotUniform,
        }
    }
}
