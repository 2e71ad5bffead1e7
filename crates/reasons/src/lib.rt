// The published reasons of a refusal, with their numbers.
#![tactic(auto)]

/// Why an operation refuses.
#[derive(Clone, Copy, Debug, PartialEq, Eq, PartialOrd, Ord, Hash)]
pub enum Reason {
    CutShort = 1,
    WrongKind = 2,
    WrongLength = 3,
    LimitBroken = 4,
    EntryTooLarge = 5,
    BadTerm = 6,
    BytesFollow = 7,
    BoxRepeats = 8,
    WorkspaceTooSmall = 9,
    ChainIsNotBox = 10,
    // 11 is retired, and not given again
    NotCorrect = 12,
    NotNonComplete = 13,
    NotUniform = 14,
    BadShare = 15,
    DegreeTooHigh = 16,
    OutputTooShort = 17,
    InputTooLong = 18,
    SharesDiffer = 19,
    TooManyStages = 20,
    BadPlacement = 21,
}

impl Reason {
    ghost use Rattle.std.specs.Prelude.{◌≡◌};
    ghost use Rattle.reasons.specs.Numbers.{number};

    /// The published number.
    pub fn number(self) -> usize
        ensures { result ≡ number self }
    {
        self as usize
    }
}
