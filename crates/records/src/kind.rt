// The kinds of records.

/// What a record is.
#[derive(Clone, Copy, Debug, PartialEq, Eq)]
pub enum Kind {
    Head = 1,
    Table = 2,
    List = 3,
    End = 4,
}

impl Kind {
    ghost use Rattle.std.specs.Prelude.{◌≡◌};
    ghost use Rattle.records.specs.Kinds.{code};

    /// The number that stands for it in a file.
    pub fn code(self) -> u16
        ensures { result ≡ code self }
    {
        self as u16
    }
}
