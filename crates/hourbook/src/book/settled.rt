//! The regions that are settled in an opening.
ghost use Rattle.std.specs.Prelude.{◌≡◌, ℕ, ◌≤◌, ◌||◌, ◌==◌};
ghost use Rattle.hourbook.specs.SettledIn.{settled_in};

use crate::hourfile::region_number::RegionNumber;
use std::marker::Model;

// Bit r − 1 is set for region r. A clause sees the bits.
#[derive(Clone, Copy, Debug, Default, PartialEq, Eq)]
pub(crate) struct SettledRegions {
    bits: u32,
}

impl Model for SettledRegions {
    ghost Value = { ℕ };

    ghost view = { λ r. r.bits };

    ghost inverse = { λ n. record { bits = n } };
}

impl SettledRegions {
    pub(crate) fn is_empty(self) -> bool
        ensures { result ≡ (self == 0) }
    {
        self.bits == 0
    }

    pub(crate) fn contains(self, region: RegionNumber) -> bool
        ensures { result ≡ settled_in self region.number }
    {
        (self.bits >> (region.get() - 1)) & 1 == 1
    }

    // These regions, and one more.
    pub(crate) fn with(self, region: RegionNumber) -> SettledRegions
        ensures { (k : ℕ) → 1 ≤ k → k ≤ 32 → settled_in result k ≡ (k == region.number || settled_in self k) }
    {
        SettledRegions {
            bits: self.bits | (1 << (region.get() - 1)),
        }
    }
}
