//! The ranges of the numbers of an hour file.
ghost use Rattle.std.specs.Prelude.{◌↔◌, IsTrue};
ghost use Rattle.hourbook.specs.Lawful.{CapacityInRange, InRange};
ghost use Rattle.hourbook.specs.declared.hourfile.fault.FileFault.TheVariants.{Range};

use crate::hourfile::border::Capacity;
use crate::hourfile::fault::FileFault;
use crate::hourfile::method::Method;
use crate::hourfile::position::NetPosition;
use crate::hourfile::price::Price;
use crate::hourfile::record::{BorderRecord, Record};
use crate::hourfile::region_number::RegionNumber;
use crate::hourfile::rule::Rule;

const LARGEST_FACTOR: i16 = 10_000;

const LARGEST_LOSS: u16 = 1_000;

const OWNERS: u8 = 64;

const LARGEST_KEY: u16 = 10_000;

// The ranges of a file of this method.
#[derive(Clone, Copy, Debug, PartialEq, Eq)]
pub(crate) struct Ranges {
    pub(crate) method: Method,
}

impl Rule for Ranges {
    ghost passes = { λ s r. InRange s.method r };

    ghost after = { λ s _. s };

    ghost fault = { Range };

    fn fault_at(place: usize) -> FileFault {
        FileFault::Range { place }
    }

    fn admits(&mut self, record: &Record) -> bool {
        record.in_range(self.method)
    }
}

impl Record {
    // Whether every number of the record lies in its range, in a file of this method.
    pub(crate) fn in_range(&self, method: Method) -> bool
        ensures { IsTrue result ↔ InRange method self.now }
    {
        match self {
            Record::Header(header) => {
                header.hour >= 1
                    && RegionNumber::try_from(header.region).is_ok()
                    && header.method().is_some()
            }
            Record::Zone(zone) => {
                Price::try_from(zone.price).is_ok() && NetPosition::try_from(zone.position).is_ok()
            }
            Record::Border(border) => border.in_range(method),
            Record::Factor(factor) => (-LARGEST_FACTOR..=LARGEST_FACTOR).contains(&factor.factor),
            Record::Loss(loss) => loss.loss <= LARGEST_LOSS,
            Record::Owner(owner) => (1..=OWNERS).contains(&owner.owner) && owner.key <= LARGEST_KEY,
            Record::Leg(_) | Record::End => true,
        }
    }
}

impl BorderRecord {
    // The flow-based method allocates no capacity.
    fn in_range(&self, method: Method) -> bool
        ensures { IsTrue result ↔ CapacityInRange method self.now.capacity }
    {
        match method {
            Method::FlowBased => self.capacity == 0,
            Method::Coordinated => Capacity::try_from(self.capacity).is_ok(),
        }
    }
}
