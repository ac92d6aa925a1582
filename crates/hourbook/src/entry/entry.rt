//! An entry: what a place of memory is read as.
ghost use Rattle.std.specs.Prelude.{◌≡◌, [], ◌∷◌, pos};
ghost use Rattle.hourbook.specs.Entries.{IsReadAs};

use crate::entry::kind::EntryKind;
use crate::entry::row::Row;
use crate::within::Within;

// Its amount lies within two billion cents either way, so that a sum over all entries of a book cannot overflow.
#[derive(Clone, Copy, Debug, PartialEq, Eq)]
pub(crate) struct Entry {
    pub(crate) kind: EntryKind,
    pub(crate) hour: u32,
    pub(crate) region: u8,
    pub(crate) line: u8,
    pub(crate) leg: u8,
    pub(crate) owner: u8,
    pub(crate) amount: Within<2_000_000_000>,
}

impl Entry {
    // The numbers of its line in a statement.
    pub(crate) fn numbers(&self) -> [i64; 5]
        ensures { result ≡ pos self.now.hour ∷ pos self.now.region ∷ pos self.now.line ∷ pos self.now.leg ∷ self.now.amount.value ∷ [] }
    {
        [
            i64::from(self.hour),
            i64::from(self.region),
            i64::from(self.line),
            i64::from(self.leg),
            i64::from(self.amount.get()),
        ]
    }
}

// An amount out of range is read as 0, and the other fields as they are.
impl From<&Row> for Entry {
    ghost from_gives = { λ row e. IsReadAs row.now e };

    fn from(row: &Row) -> Entry {
        Entry {
            kind: row.kind,
            hour: row.hour,
            region: row.region,
            line: row.line,
            leg: row.leg,
            owner: row.owner,
            amount: Within::try_from(row.amount).unwrap_or_default(),
        }
    }
}
