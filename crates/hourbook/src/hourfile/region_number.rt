//! The number of a region.
ghost use Rattle.std.specs.Prelude.{◌≡◌, ◌≤◌, MatchResult};

use crate::within::OutOfRange;

const REGIONS: u8 = 32;

// From 1 to 32.
#[derive(Clone, Copy, Debug, PartialEq, Eq)]
pub(crate) struct RegionNumber {
    number: u8,
    ghost named: { 1 ≤ number },
    ghost known: { number ≤ 32 },
}

impl TryFrom<u8> for RegionNumber {
    type Error = OutOfRange;

    ghost try_from_gives = { λ n r. MatchResult r (λ region. region.number ≡ n) (λ _. 1 ≤ n → n ≤ 32 → ⊥) };

    fn try_from(number: u8) -> Result<RegionNumber, OutOfRange> {
        if !(1..=REGIONS).contains(&number) {
            return Err(OutOfRange);
        }
        Ok(RegionNumber { number })
    }
}

impl RegionNumber {
    pub(crate) fn get(self) -> u8
        ensures value { result ≡ self.number }
        ensures named { 1 ≤ result }
        ensures known { result ≤ 32 }
    {
        self.number
    }
}
