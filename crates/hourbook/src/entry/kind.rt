//! The kinds of entries.
ghost use Rattle.std.specs.Prelude.{◌≡◌};
ghost use Rattle.hourbook.specs.Rows.{letter_of};

// A credit of a settled hour, a credit taken back, or a payment to an owner.
#[derive(Clone, Copy, Debug, PartialEq, Eq)]
pub(crate) enum EntryKind {
    Credit,
    TakenBack,
    Payment,
}

impl EntryKind {
    // The letter in a statement. It keeps its name: a `u8` from a kind could as well be its place among the kinds.
    pub(crate) fn letter(self) -> u8
        ensures { result ≡ letter_of self }
    {
        match self {
            EntryKind::Credit => b'C',
            EntryKind::TakenBack => b'T',
            EntryKind::Payment => b'P',
        }
    }
}
