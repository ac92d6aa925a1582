//! Why a settlement is refused.
ghost use Rattle.std.specs.Prelude.{◌≡◌};
ghost use Rattle.hourbook.specs.SettlementFaults.{notice_of};
ghost use Rattle.hourbook.specs.declared.region.fault.RegionFault.TheVariants.{Unsound};
ghost use Rattle.hourbook.specs.declared.settlement.fault.SettlementFault.TheVariants.{Region};

use crate::notice::Notice;
use crate::region::fault::{Flaw, RegionFault};

#[derive(Clone, Copy, Debug, PartialEq, Eq, Hash)]
pub(crate) enum SettlementFault {
    Region(RegionFault),
    // table and region differ in their number of lines
    Lines,
    // work memory is too short
    Work,
    // the income or the weights pass their limit
    Limit,
}

impl SettlementFault {
    pub(crate) fn notice(&self) -> Notice
        ensures { result ≡ notice_of self.now }
    {
        let number = match self {
            SettlementFault::Region(fault) => return fault.notice(),
            SettlementFault::Lines => 10,
            SettlementFault::Work => 11,
            SettlementFault::Limit => 12,
        };
        Notice {
            number,
            layer: 3,
            place: 0,
        }
    }
}

// By hand, as in `hourfile/fault.rt`: clauses name what a `?` makes.
impl From<RegionFault> for SettlementFault {
    ghost from_gives = { λ e r. r ≡ Region e };

    fn from(e: RegionFault) -> SettlementFault {
        SettlementFault::Region(e)
    }
}

// A `?` goes up one layer at a time; this one takes two.
impl From<Flaw> for SettlementFault {
    ghost from_gives = { λ e r. r ≡ Region (Unsound e) };

    fn from(e: Flaw) -> SettlementFault {
        SettlementFault::from(RegionFault::from(e))
    }
}
