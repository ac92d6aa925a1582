//! How many records of each kind an hour file has.
ghost use Rattle.std.specs.Prelude.{◌≡◌, ◌↔◌, IsTrue};
ghost use Rattle.hourbook.specs.Kinds.{kind_of};
ghost use Rattle.hourbook.specs.Tallies.{Furnished, WithinLimits, added, none_yet};
ghost use Rattle.hourbook.specs.declared.hourfile.fault.FileFault.TheVariants.{Count};

use crate::hourfile::fault::FileFault;
use crate::hourfile::method::Method;
use crate::hourfile::record::{Kind, Record};
use crate::hourfile::rule::Rule;

const MOST_ZONES: u8 = 16;

const MOST_BORDERS: u8 = 48;

const MOST_LEGS: u8 = 64;

const MOST_OWNER_ROWS: u8 = 128;

// Factors and losses are not counted: no leg takes two for a zone, and no line two losses. The limits are no invariant of
// the type, since the specification also names the tally that passes one.
#[derive(Clone, Copy, Debug, PartialEq, Eq)]
pub(crate) struct Tally {
    pub(crate) zones: u8,
    pub(crate) borders: u8,
    pub(crate) legs: u8,
    pub(crate) owners: u8,
}

impl Tally {
    pub(crate) fn new() -> Tally
        ensures { result ≡ none_yet }
    {
        Tally {
            zones: 0,
            borders: 0,
            legs: 0,
            owners: 0,
        }
    }

    // Counts one record more, and says whether no kind has come too often.
    pub(crate) fn add(&mut self, kind: Kind) -> bool
        requires { WithinLimits self.old }
        ensures after { self.new ≡ added self.old kind }
        ensures test { IsTrue result ↔ WithinLimits self.new }
    {
        match kind {
            Kind::Zone => self.zones += 1,
            Kind::Border => self.borders += 1,
            Kind::Leg => self.legs += 1,
            Kind::Owner => self.owners += 1,
            Kind::Header | Kind::Factor | Kind::Loss | Kind::End => {}
        }
        self.zones <= MOST_ZONES
            && self.borders <= MOST_BORDERS
            && self.legs <= MOST_LEGS
            && self.owners <= MOST_OWNER_ROWS
    }

    // Whether nothing is missing that a file of this method must have.
    pub(crate) fn suffices(&self, method: Option<Method>) -> bool
        ensures { IsTrue result ↔ Furnished self.now method }
    {
        match method {
            Some(Method::Coordinated) => self.zones > 0 && self.borders > 0,
            _ => self.zones > 0,
        }
    }
}

impl Rule for Tally {
    ghost ready = { WithinLimits };

    ghost passes = { λ t r. WithinLimits (added t (kind_of r)) };

    ghost after = { λ t r. added t (kind_of r) };

    ghost fault = { Count };

    fn fault_at(place: usize) -> FileFault {
        FileFault::Count { place }
    }

    fn admits(&mut self, record: &Record) -> bool {
        let before = *self;
        let few = self.add(record.kind());
        if !few {
            *self = before;
        }
        few
    }
}
