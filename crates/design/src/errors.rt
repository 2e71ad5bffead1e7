// Why a file does not read.
use reasons::Reason;

/// What is wrong with a record, in the order in which it is looked for, or behind the last one.
#[derive(Clone, Copy, Debug, PartialEq, Eq)]
pub enum Fault {
    /// The file ends within the record.
    CutShort,
    /// Its kind is not the one that is due.
    WrongKind,
    /// Its length is not one that its kind may have.
    WrongLength,
    /// A number of the head breaks a limit.
    LimitBroken,
    /// An entry of a table is 2^m or more.
    EntryTooLarge,
    /// A term of a list has a bit of m × s or above, or does not rise.
    BadTerm,
    /// Bytes stand behind the last record.
    BytesFollow,
}

impl From<Fault> for Reason {
    ghost use Rattle.std.specs.Prelude.{◌≡◌};
    ghost use Rattle.design.specs.Errors.{fault_reason};

    ghost from_gives = { λ fault reason. reason ≡ fault_reason fault };

    fn from(fault: Fault) -> Reason {
        match fault {
            Fault::CutShort => Reason::CutShort,
            Fault::WrongKind => Reason::WrongKind,
            Fault::WrongLength => Reason::WrongLength,
            Fault::LimitBroken => Reason::LimitBroken,
            Fault::EntryTooLarge => Reason::EntryTooLarge,
            Fault::BadTerm => Reason::BadTerm,
            Fault::BytesFollow => Reason::BytesFollow,
        }
    }
}

/// Why a file does not read, and where: the first byte of the record at fault, or the first after the end.
#[derive(Clone, Copy, Debug, PartialEq, Eq)]
pub struct ReadError {
    /// What is wrong there.
    pub fault: Fault,
    /// In bytes from the start of the file.
    pub place: usize,
}

impl From<ReadError> for Reason {
    ghost use Rattle.std.specs.Prelude.{◌≡◌};
    ghost use Rattle.design.specs.Errors.{fault_reason};

    ghost from_gives = { λ error reason. reason ≡ fault_reason error.fault };

    fn from(error: ReadError) -> Reason {
        Reason::from(error.fault)
    }
}
