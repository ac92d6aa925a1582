//! The order of an hour file's records.
ghost use Rattle.std.specs.Prelude.{IsTrue};
ghost use Rattle.hourbook.specs.Kinds.{kind_of};
ghost use Rattle.hourbook.specs.Order.{may_stand, phase_after};
ghost use Rattle.hourbook.specs.declared.hourfile.fault.FileFault.TheVariants.{Order};

use crate::hourfile::fault::FileFault;
use crate::hourfile::record::{Kind, Record};
use crate::hourfile::rule::Rule;

// The kind that came last. Every list of records may be empty.
#[derive(Clone, Copy, Debug, PartialEq, Eq)]
pub(crate) enum Phase {
    Start,
    Zones,
    Borders,
    Legs,
    Factors,
    Losses,
    Owners,
    Done,
}

impl Rule for Phase {
    ghost passes = { λ p r. IsTrue (may_stand p (kind_of r)) };

    ghost after = { λ p r. phase_after p (kind_of r) };

    ghost fault = { Order };

    fn fault_at(place: usize) -> FileFault {
        FileFault::Order { place }
    }

    fn admits(&mut self, record: &Record) -> bool {
        use Phase::*;
        *self = match (*self, record.kind()) {
            (Start, Kind::Header) => Zones,
            (Zones, Kind::Zone) => Zones,
            (Zones | Borders, Kind::Border) => Borders,
            (Zones | Borders | Legs, Kind::Leg) => Legs,
            (Zones | Borders | Legs | Factors, Kind::Factor) => Factors,
            (Zones | Borders | Legs | Factors | Losses, Kind::Loss) => Losses,
            (Zones | Borders | Legs | Factors | Losses | Owners, Kind::Owner) => Owners,
            (Zones | Borders | Legs | Factors | Losses | Owners, Kind::End) => Done,
            _ => return false,
        };
        true
    }
}
