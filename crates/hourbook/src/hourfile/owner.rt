//! The owners of legs.
ghost use Rattle.std.specs.Prelude.{◌≡◌};

use crate::hourfile::record::OwnerRecord;
use sharing::{Receiving, Weighted};

// One owner's key of a leg, in ten-thousandths.
#[derive(Clone, Copy, Debug, PartialEq, Eq)]
pub(crate) struct OwnerRow {
    pub(crate) owner: u8,
    pub(crate) key: u16,
}

impl From<OwnerRecord> for OwnerRow {
    ghost use Rattle.hourbook.specs.OwnershipRead.{owner_row};

    ghost from_gives = { λ told row. row ≡ owner_row told };

    fn from(record: OwnerRecord) -> OwnerRow {
        OwnerRow {
            owner: record.owner,
            key: record.key,
        }
    }
}

impl Weighted for OwnerRow {
    ghost weighs = { λ x. x.key };

    fn weight(&self) -> u64 {
        u64::from(self.key)
    }
}

impl Receiving for OwnerRow {
    ghost receives = { λ x. x.owner };

    fn receiver(&self) -> u8 {
        self.owner
    }
}

// An owner of a region, by number: all share alike.
#[derive(Clone, Copy, Debug, Default, PartialEq, Eq)]
pub(crate) struct Owner {
    pub(crate) number: u8,
}

impl Weighted for Owner {
    ghost weighs = { λ _. 1 };

    fn weight(&self) -> u64 {
        1
    }
}

impl Receiving for Owner {
    ghost receives = { λ x. x.number };

    fn receiver(&self) -> u8 {
        self.number
    }
}
