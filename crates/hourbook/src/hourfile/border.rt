//! A border between two zones.
ghost use Rattle.std.specs.Prelude.{◌≡◌, ◌≤◌, MatchResult, unsigned_abs};

use crate::hourfile::record::BorderRecord;
use crate::within::{OutOfRange, Within};

// Tenths of a MW, positive where the capacity leaves the near zone, at most 200,000 either way.
pub(crate) type Capacity = Within<200_000>;

// Near and far are zones, numbered from 1. The capacity is the allocated one.
#[derive(Clone, Copy, Debug, PartialEq, Eq)]
pub(crate) struct Border {
    pub(crate) near: u8,
    pub(crate) far: u8,
    pub(crate) capacity: Capacity,
}

impl TryFrom<BorderRecord> for Border {
    ghost use Rattle.hourbook.specs.Tables.{border_said};

    type Error = OutOfRange;

    ghost try_from_gives = { λ x r. MatchResult r (λ b. border_said b ≡ x) (λ _. ¬ (unsigned_abs x.capacity ≤ 200000)) };

    fn try_from(record: BorderRecord) -> Result<Border, OutOfRange> {
        let capacity = Capacity::try_from(record.capacity)?;
        Ok(Border {
            near: record.near,
            far: record.far,
            capacity,
        })
    }
}
