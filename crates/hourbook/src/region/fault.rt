//! What is wrong with a region.
ghost use Rattle.std.specs.Prelude.{◌≡◌};
ghost use Rattle.hourbook.specs.RegionFaults.{notice_of};
ghost use Rattle.hourbook.specs.declared.region.fault.RegionFault.TheVariants.{File, Unsound};

use crate::hourfile::fault::FileFault;
use crate::notice::Notice;

// Why a region is not sound: no other verdict is possible.
#[derive(Clone, Copy, Debug, PartialEq, Eq, Hash)]
pub(crate) enum Flaw {
    // net positions do not add to 0, or differ from the flows of their zone
    Imbalance,
    // the magnitudes of the net positions pass their limit
    Excess,
}

#[derive(Clone, Copy, Debug, PartialEq, Eq, Hash)]
pub(crate) enum RegionFault {
    File(FileFault),
    Unsound(Flaw),
}

impl RegionFault {
    pub(crate) fn notice(&self) -> Notice
        ensures { result ≡ notice_of self.now }
    {
        let number = match self {
            RegionFault::File(fault) => return fault.notice(),
            RegionFault::Unsound(Flaw::Imbalance) => 8,
            RegionFault::Unsound(Flaw::Excess) => 9,
        };
        Notice {
            number,
            layer: 2,
            place: 0,
        }
    }
}

// By hand, as in `hourfile/fault.rt`: clauses name what a `?` makes.
impl From<FileFault> for RegionFault {
    ghost from_gives = { λ e r. r ≡ File e };

    fn from(e: FileFault) -> RegionFault {
        RegionFault::File(e)
    }
}

impl From<Flaw> for RegionFault {
    ghost from_gives = { λ e r. r ≡ Unsound e };

    fn from(e: Flaw) -> RegionFault {
        RegionFault::Unsound(e)
    }
}
