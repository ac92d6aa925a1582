//! The credits of a settled hour.
ghost use Rattle.std.specs.Prelude.{◌≡◌};
ghost use Rattle.hourbook.specs.Rows.{credit_row, directed};

use crate::entry::kind::EntryKind;
use crate::entry::row::Row;
use sharing::{Amount, Keeping, Receiving};

// The hour and the region that an entry comes from.
#[derive(Clone, Copy, Debug, PartialEq, Eq)]
pub(crate) struct Origin {
    pub(crate) hour: u32,
    pub(crate) region: u8,
}

// Whether shares are received, or borne: the amounts of the latter are negated. No closure: a credit is data, and clauses
// name its direction.
#[derive(Clone, Copy, Debug, PartialEq, Eq)]
pub(crate) enum Direction {
    Received,
    Borne,
}

impl Direction {
    // A share as an amount.
    fn amount(self, share: Amount) -> i32
        ensures { result ≡ directed self share.cents }
    {
        let cents = share.cents().cast_signed();
        match self {
            Direction::Received => cents,
            Direction::Borne => -cents,
        }
    }
}

// What the credits of one leg have in common. Line and leg are 0 where an income below 0 is shared.
#[derive(Clone, Copy, Debug, PartialEq, Eq)]
pub(crate) struct Credit {
    pub(crate) origin: Origin,
    pub(crate) line: u8,
    pub(crate) leg: u8,
    pub(crate) direction: Direction,
}

// Keeps a receiver's share as a credit.
impl<R: Receiving> Keeping<R, Row> for Credit {
    ghost cell = { λ c row share. credit_row c.origin c.line c.leg (R.Receiving.receives row) (directed c.direction share) };

    fn keep(&self, row: &R, share: Amount) -> Row {
        Row {
            hour: self.origin.hour,
            amount: self.direction.amount(share),
            kind: EntryKind::Credit,
            region: self.origin.region,
            line: self.line,
            leg: self.leg,
            owner: row.receiver(),
        }
    }
}
